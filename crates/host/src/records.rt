// What a call has made of a record, handed back as bytes.
ghost use Rattle.std.specs.Prelude.{◌≡◌, length};
ghost use Rattle.host.specs.Hosted.{handed_out, handed_back};

use crate::{Answer, said};
use calls::Moved;
use refusals::Refusal;
use session::bytes::to_bytes;

// The record that a call answers, whatever the refusal.
pub fn hand_out(moved: Moved, bytes: &mut [u8]) -> Answer
    requires { length bytes.old ≡ 2580 }
    ensures { (result, bytes.new) ≡ handed_out moved }
{
    bytes.copy_from_slice(&to_bytes(moved.session));
    said(moved.refusal, 0)
}

// "On a refusal .. the record is the one given": only a call that succeeds writes the record.
pub fn hand_back(moved: Moved, bytes: &mut [u8]) -> Answer
    requires { length bytes.old ≡ 2580 }
    ensures { (result, bytes.new) ≡ handed_back moved bytes.old }
{
    match moved.refusal {
        Refusal::Success => hand_out(moved, bytes),
        refusal => said(refusal, 0),
    }
}
