// The calls of C, as its header has them: each answers 0 where it is done, else the number of its refusal.
ghost use Rattle.std.specs.Prelude.{◌≡◌};
ghost use Rattle.payload.specs.Writing.{write_of};
ghost use Rattle.host.specs.Calls.{empty_of, add_of, receive_of, server_on, close_of, write_row_of};

use crate::adding::add;
use crate::steps::{close, empty, receive, server};
use crate::writing::{write_bdi, write_fdi};
use refusal::number;

// An empty table's image: 11, or 0.
#[unsafe(no_mangle)]
pub extern "C" fn pw_empty(image: &mut [u8]) -> u8
    ensures { (result, image.new) ≡ empty_of image.old }
{
    number(empty(image))
}

// A path of the kind, with the expected TTSI and the local DL: 11, 10, 12, 8, 7, or 0. Its number is the count before.
#[unsafe(no_mangle)]
pub extern "C" fn pw_add(image: &mut [u8], kind: u8, ttsi: &[u8], dl: u32) -> u8
    ensures { (result, image.new) ≡ add_of image.old kind ttsi.now dl }
{
    number(add(image, kind, ttsi, dl))
}

// A payload on a path: 11, 10, 1, then as the path answers.
#[unsafe(no_mangle)]
pub extern "C" fn pw_receive(image: &mut [u8], lsp: u64, payload: &[u8]) -> u8
    ensures { (result, image.new) ≡ receive_of image.old lsp payload.now }
{
    number(receive(image, lsp, payload))
}

// The server signal: 11, 10, 1, 12, or 0.
#[unsafe(no_mangle)]
pub extern "C" fn pw_server(image: &mut [u8], lsp: u64, on: u8) -> u8
    ensures { (result, image.new) ≡ server_on image.old lsp on }
{
    number(server(image, lsp, on))
}

// The close of a path's open slot: 11, 10, 1, 9, or 0 and 27 octets of answer.
#[unsafe(no_mangle)]
pub extern "C" fn pw_close(image: &mut [u8], lsp: u64, answer: &mut [u8]) -> u8
    ensures { (result, image.new, answer.new) ≡ close_of image.old lsp answer.old }
{
    number(close(image, lsp, answer))
}

// The FDI of a path as it stands: 11, 10, 1, 13, 11, or 0 and the payload in the first 44 octets lent.
#[unsafe(no_mangle)]
pub extern "C" fn pw_write_fdi(image: &[u8], lsp: u64, buf: &mut [u8]) -> u8
    ensures { (result, buf.new) ≡ write_row_of 0x02 image.now lsp buf.old }
{
    number(write_fdi(image, lsp, buf))
}

// The BDI, likewise.
#[unsafe(no_mangle)]
pub extern "C" fn pw_write_bdi(image: &[u8], lsp: u64, buf: &mut [u8]) -> u8
    ensures { (result, buf.new) ≡ write_row_of 0x03 image.now lsp buf.old }
{
    number(write_bdi(image, lsp, buf))
}

// A payload from its fields: 12, 11, or 0.
#[unsafe(no_mangle)]
pub extern "C" fn pw_write(ty: u8, ttsi: &[u8], rate: u8, dt: u16, dl: u32, buf: &mut [u8]) -> u8
    ensures { (result, buf.new) ≡ write_of ty ttsi.now rate dt dl buf.old }
{
    number(payload::write(ty, ttsi, rate, dt, dl, buf))
}
