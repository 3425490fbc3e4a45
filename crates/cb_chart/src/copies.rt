//! Which copies clients can read.
ghost use Rattle.std.specs.Prelude.{◌≡◌, ◌<◌, ◌++◌, false, IfOk, OnOk};
ghost use Rattle.cb_chart.specs.Sights.{can_read, copies_at, copies_to, copy_of, may_write, sight};

use crate::bars::ClientCopy;
use cb_client::Client;
use cb_page::{ClientNo, PageNo};
use cb_schedule::World;
use cb_twoq::Chooser;
use std::alloc::{AllocError, Global};

/// The copies that clients of the world can read, by rising client and page. `AllocError` only if
/// memory was refused.
pub(crate) fn copies_in<Q: Chooser>(
    alloc: Global,
    world: &World<Q>,
) -> Result<Vec<ClientCopy>, AllocError>
    requires { world.now.stopped ≡ false }
    ensures { IfOk result (λ copies. copies.items ≡ sight world.now) }
{
    let mut copies = Vec::new(alloc);
    for number in 0..world.limits().clients() {
        add_client(&mut copies, world, ClientNo::new(number))?;
    }
    Ok(copies)
}

/// Puts the copies that the client of that number can read behind the others.
fn add_client<Q: Chooser>(
    copies: &mut Vec<ClientCopy>,
    world: &World<Q>,
    number: ClientNo,
) -> Result<(), AllocError>
    requires runs { world.now.stopped ≡ false }
    requires there { number < world.now.limits.clients }
    ensures { OnOk result (copies.new.items ≡ copies.old.items ++ copies_at world.now number) }
{
    match world.client(number) {
        Some(client) => add_copies(copies, number, client),
        None => Ok(()),
    }
}

/// Puts the copies that one client can read behind the others.
fn add_copies<Q: Chooser>(
    copies: &mut Vec<ClientCopy>,
    number: ClientNo,
    client: &Client<Q>,
) -> Result<(), AllocError>
    ensures { OnOk result (copies.new.items
        ≡ copies.old.items ++ copies_to number client.now client.now.copies.limits.pages) }
{
    for page in 0..client.limits().pages() {
        add_copy(copies, number, client, PageNo::new(page))?;
    }
    Ok(())
}

/// Puts the client's copy of a page behind the others, if it can read it.
fn add_copy<Q: Chooser>(
    copies: &mut Vec<ClientCopy>,
    number: ClientNo,
    client: &Client<Q>,
    page: PageNo,
) -> Result<(), AllocError>
    ensures { OnOk result
        (copies.new.items ≡ copies.old.items ++ copy_of number client.now page) }
{
    if can_read(client, page) {
        copies.push(ClientCopy {
            client: number,
            page,
            may_write: may_write(client, page),
        })?;
    }
    Ok(())
}

/// Whether the client has the bytes of its copy of the page.
fn can_read<Q: Chooser>(client: &Client<Q>, page: PageNo) -> bool
    ensures { result ≡ can_read client.now page }
{
    client.peek(page).is_some()
}

/// Whether the client may write the page in the transaction that is open.
fn may_write<Q: Chooser>(client: &Client<Q>, page: PageNo) -> bool
    ensures { result ≡ may_write client.now page }
{
    client.may_write(page)
}
