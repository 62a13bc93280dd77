//! The wire: requests from the bytes of a connection, and bytes to it. Heads are those of HTTP/1.1 (RFC 9112) in
//! the profile of `specs/Heads.antt`.
#![tactic(auto)]

mod buf;
mod fields;
mod head;
mod laws;
mod make;
mod request;
mod wire;

pub use buf::Buf;
pub use fields::number;
pub use laws::one_cut;
pub use request::Request;
pub use wire::{WireEnd, WriteFault, next_request, write_all};
