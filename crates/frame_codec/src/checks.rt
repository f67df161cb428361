// What may be wrong with a header and the bytes after it, in the order of the checks.

ghost use Rattle.std.specs.Prelude.{◌≡◌};
ghost use Rattle.frame_codec.specs.Checks as checks;

use crate::bad_frame::BadFrame;
use crate::header::{Header, MAGIC, VERSION};

fn has_pad(header: &Header) -> bool
    ensures { result ≡ checks.within 1 256 header.now.pad_len }
{
    1 <= header.pad_len && header.pad_len <= 256
}

fn leg_rules(header: &Header) -> bool
    ensures { result ≡ checks.leg_rules header.now }
{
    1 <= header.left && header.ending == 0 && header.fault == 0 && has_pad(header)
}

fn ending_rules(header: &Header) -> bool
    ensures { result ≡ checks.ending_rules header.now }
{
    match header.ending {
        1 => header.cur == 0 && header.fault == 0,
        2 => 1 <= header.left && header.fault == 0,
        3 => header.left == 0 && header.fault == 0,
        4 => 1 <= header.left && 1 <= header.fault && header.fault <= 4,
        _ => false,
    }
}

fn stop_rules(header: &Header) -> bool
    ensures { result ≡ checks.stop_rules header.now }
{
    header.client == 0
        && header.request == 0
        && header.leg == 0
        && header.program == 0
        && header.left == 0
        && header.ending == 0
        && header.fault == 0
        && header.cur == 0
        && header.pad_len == 0
}

fn field_rules(header: &Header) -> bool
    ensures { result ≡ checks.field_rules header.now }
{
    match header.kind {
        1 => leg_rules(header),
        2 => has_pad(header) && ending_rules(header),
        _ => stop_rules(header),
    }
}

/// The first check that fails where so many bytes follow the header.
pub fn first_fault(header: &Header, after: usize) -> Option<BadFrame>
    ensures { result ≡ checks.first_fault header.now after }
{
    if header.magic != MAGIC {
        return Some(BadFrame::Magic);
    }
    if header.version != VERSION {
        return Some(BadFrame::Version);
    }
    if header.kind < 1 || 3 < header.kind {
        return Some(BadFrame::Kind);
    }
    if !field_rules(header) {
        return Some(BadFrame::Field);
    }
    let pad_len = header.pad_len as usize;
    if after < pad_len {
        return Some(BadFrame::Short);
    }
    if pad_len < after {
        return Some(BadFrame::Long);
    }
    None
}
