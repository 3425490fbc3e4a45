//! Frames: the messages between a client and the server, as values and as bytes.
//!
//! A [`Frame`] names a client and its incarnation, and says one thing ([`Body`], [`Kind`]). As
//! bytes it has a header of 16 bytes and a body. All numbers have their highest byte first. The
//! header is the version of the format (one byte, 1 or 2), the kind (one byte), the client (two),
//! its incarnation (eight) and the length of the body (four).
//!
//! [`Frame::fits`] says which frames there are under given limits; each of them has one spelling in
//! a version, which `specs/` defines. [`encode`] writes the newest version, [`decode`] reads both,
//! whatever follows the frame.
#![tactic(auto)]

mod decoding;
mod encoding;
mod fault;
mod fields;
mod frame;
mod kind;
mod version;
mod words;
mod writes;

pub use decoding::{decode, one_spelling};
pub use encoding::{encode, encode_granted};
pub use fault::{BytesFault, FrameFault};
pub use fields::Fields;
pub use frame::{Body, Frame, ShortBody, ShortFrame};
pub use kind::Kind;
pub use version::FrameVersion;
pub use words::{put_u16, put_u32, put_u64};
pub use writes::{Write, Writes};
