//! What the clients of a running server hold, as types; what the server's owner stores of that; and
//! the history of commits.
//!
//! A cached copy is the permission to read it (Franklin, Carey and Livny, TODS 1997). A [`Grant`]
//! is that permission for one page, and a [`Hand`] has all grants of one client. Neither can be
//! copied or dropped. Only [`JoinedHands`] makes hands and changes them. It stores what each joined
//! client's hand shows, and changes both together, so its owner knows a hand even while the hand is
//! away. It also tells whether a hand that is lent equals the stored one.
//!
//! Each grant in a hand therefore stands for one row of the server's directory, if the owner
//! receives no other grants. A table knows hands by what they show. If another table made a hand
//! that shows the same, it is taken for one of its own.
//!
//! An [`Entry`] of the history tells what a transaction read, at which versions, and what it wrote.
//! A history is legal if each version read is that of the last earlier commit which wrote the page.
//! It replays to a server if it tells that server's commits and store. Both stay so through all
//! that the protocol's server does, whatever comes ([`commits_are_noted`]).
//!
//! The laws of agreement are about the protocol's definitions, for whoever keeps hands beside a
//! server. Two hands that agree with a server never clash ([`hands_meet`]). A hand goes on agreeing
//! through the steps of other clients ([`others_stay`]). It does so through its own changes, too,
//! if the server has what comes ([`own_changes`], [`own_stays`], [`own_hand_stays`]).
//!
//! The cost of a change grows with what it changes, and that of clearing a hand with the pages that
//! it holds. Hand and table list the held pages in the same order, so comparing them is one pass.
#![tactic(auto)]

mod agreement;
mod copies;
mod entry;
mod grant;
mod grants;
mod hand;
mod history;
mod joined_hands;
mod sets;
mod stored_hand;

pub use agreement::{hands_meet, others_stay, own_changes, own_hand_stays, own_stays};
pub use entry::{Entry, Read};
pub use grant::{Grant, Held, Shown};
pub use hand::Hand;
pub use history::commits_are_noted;
pub use joined_hands::JoinedHands;
