// Regions as text.

ghost use Rattle.std.specs.Prelude.{◌≡◌, ◌++◌, codes, IfOk, OnOk};
ghost use Rattle.hex.specs.Hex.{encode_lower};
ghost use Rattle.sha2.specs.Sha256.{sha256};
ghost use Rattle.report_text.specs.Report.{region_text, region_line};

use crate::outcome::OutRegion;
use crate::text::{put, put_head, put_hex};
use pulse_base::{Bytes, Memory};
use sha2::{Digest, Sha256};
use std::alloc::Global;

/// The report's line of region `i`, its LF included: its bytes where it is shown, else their SHA-256.
pub fn region_line(alloc: Global, i: u32, region: &OutRegion) -> Result<Bytes, Memory>
    ensures { IfOk result (λ line. line ≡ region_line i region.now) }
{
    let mut text = Bytes::new(alloc);
    put_region_line(alloc, &mut text, u64::from(i), region)?;
    Ok(text)
}

pub(crate) fn put_region_line(
    alloc: Global,
    text: &mut Bytes,
    i: u64,
    region: &OutRegion,
) -> Result<(), Memory>
    ensures { OnOk result (text.new ≡ text.old ++ region_line i region.now) }
{
    put_head(text, "region", i)?;
    put_region(alloc, text, region)?;
    put(text, "\n")?;
    Ok(())
}

fn put_region(alloc: Global, text: &mut Bytes, region: &OutRegion) -> Result<(), Memory>
    ensures { OnOk result (text.new ≡ text.old ++ region_text region.now) }
{
    let bytes = region.bytes.as_slice();
    if region.shown {
        put_hex_form(alloc, text, bytes)
    } else {
        put_digest_form(alloc, text, bytes)
    }
}

fn put_hex_form(alloc: Global, text: &mut Bytes, bytes: &[u8]) -> Result<(), Memory>
    ensures { OnOk result (text.new ≡ text.old ++ codes "hex " ++ encode_lower bytes.now) }
{
    put(text, "hex ")?;
    put_hex(alloc, text, bytes)?;
    Ok(())
}

fn put_digest_form(alloc: Global, text: &mut Bytes, bytes: &[u8]) -> Result<(), Memory>
    ensures { OnOk result (text.new ≡ text.old ++ codes "sha256 " ++ encode_lower (sha256 bytes.now)) }
{
    let digest = digest(bytes);
    put(text, "sha256 ")?;
    put_hex(alloc, text, digest.as_slice())?;
    Ok(())
}

fn digest(bytes: &[u8]) -> [u8; 32]
    ensures { result ≡ sha256 bytes.now }
{
    let mut hasher = Sha256::new();
    hasher.update(bytes);
    hasher.finalize()
}
