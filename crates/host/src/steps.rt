// What changes the image: an empty table's, and a step on a path, which a refusal leaves as it was.
ghost use Rattle.std.specs.Prelude.{◌≡◌};
ghost use Rattle.refusal.specs.Numbers.{number_in};
ghost use Rattle.host.specs.Calls.{empty_of, receive_of, server_on, close_of};

use crate::answer;
use crate::record::{HEAD, IMAGE, find, put};
use refusal::Refusal;

// The head of an image with no paths: tag 01, length 2, version 01 and the count.
const EMPTY: [u8; HEAD] = [1, 0, 2, 1, 0];

#[tactic(auto, using(crate::proofs::Empty::empty_steps))]
pub(crate) fn empty(image: &mut [u8]) -> Result<(), Refusal>
    ensures { (number_in result, image.new) ≡ empty_of image.old }
{
    if image.len() < IMAGE {
        return Err(Refusal::Short);
    }
    image[..HEAD].copy_from_slice(&EMPTY);
    Ok(())
}

#[tactic(auto, using(crate::proofs::Stepped::receive_steps))]
pub(crate) fn receive(image: &mut [u8], lsp: u64, payload: &[u8]) -> Result<(), Refusal>
    ensures { (number_in result, image.new) ≡ receive_of image.old lsp payload.now }
{
    let (_, next) = find(image, lsp)?.receive(payload)?;
    put(image, lsp, next);
    Ok(())
}

#[tactic(auto, using(crate::proofs::Stepped::server_steps))]
pub(crate) fn server(image: &mut [u8], lsp: u64, on: u8) -> Result<(), Refusal>
    ensures { (number_in result, image.new) ≡ server_on image.old lsp on }
{
    let next = find(image, lsp)?.server(on)?;
    put(image, lsp, next);
    Ok(())
}

// Octets of a close's answer.
const ANSWER: usize = 27;

#[tactic(auto, using(crate::proofs::Closes::close_steps))]
pub(crate) fn close(image: &mut [u8], lsp: u64, answer: &mut [u8]) -> Result<(), Refusal>
    ensures { (number_in result, image.new, answer.new) ≡ close_of image.old lsp answer.old }
{
    if answer.len() < ANSWER {
        return Err(Refusal::Short);
    }
    let (closed, next) = find(image, lsp)?.close()?;
    put(image, lsp, next);
    answer[..ANSWER].copy_from_slice(&answer::octets(closed));
    Ok(())
}
