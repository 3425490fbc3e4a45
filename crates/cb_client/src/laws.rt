//! What holds of every client, whatever went before, as laws over its contracts.
ghost use Rattle.cb_client.specs.Laws.{CallbacksAreAnswered, DowngradesAreAnswered};
ghost use Rattle.cb_client.specs.Laws.{InUseIsGivenBack};

/// A welcomed client answers each Callback of its incarnation at once with one message: InUse if it
/// holds that grant and its transaction read the page, otherwise a GiveBack of that page and grant.
pub fn callbacks_are_answered()
    ensures { CallbacksAreAnswered }
{}

/// With kept write permission, a welcomed client answers each Downgrade at once with one message:
/// InUse if its transaction uses that permission, otherwise Downgraded, and GiveBack if it doesn't
/// hold the grant. Without it the client sends nothing.
pub fn downgrades_are_answered()
    ensures { DowngradesAreAnswered }
{}

/// A page whose Callback was answered InUse is due until its transaction ends. It is then given
/// back exactly once, and by no earlier call or message.
pub fn in_use_is_given_back()
    ensures { InUseIsGivenBack }
{}
