//! How the history follows the server, as laws over the protocol's definitions.
ghost use Rattle.cb_hands.specs.Running.{NewServerIsNoted, NoOtherChanges, NotedCommit};

/// An empty history replays to a new server. When a commit is applied, one more entry, with the
/// commit's names and pages, replays to the new state. The history stays legal if the entry's reads
/// are of the versions that the store had. A step that applies no commit changes nothing here.
pub fn commits_are_noted()
    ensures opens { NewServerIsNoted }
    ensures commit { NotedCommit }
    ensures others { NoOtherChanges }
{}
