//! Who holds which copy, and may write it.

use cb_directory::Directory;
use cb_page::{ClientNo, Limits, PageNo, TxnNo};
use std::test::Fail;

/// A client writes a page, gives it back, and is forgotten.
#[test]
fn rows_and_permissions(rt: HostRuntime) -> Result<(), Fail> {
    let limits = Limits::new(2, 8, 16, 4, 1, 2)?;
    let mut directory = Directory::new(rt.alloc(), &limits)?;
    let client = ClientNo::new(1);
    let page = PageNo::new(5);
    directory.grant(client, page);
    directory.set_writer(client, page, TxnNo::new(7));
    directory.give_back(client, page);
    let kept = directory.row(client, page).is_none() && directory.holder(page) == Some(client);
    directory.clear_writers(client);
    let next = directory.grant(client, page).get() == 2;
    directory.forget_client(client);
    assert!(rt; kept && next && directory.row(client, page).is_none());
    Ok(())
}
