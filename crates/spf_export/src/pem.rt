//! PEM, by RFC 7468.

ghost use Rattle.std.specs.Prelude.{◌≡◌, ◌++◌, [], IfOk, OnOk};
ghost use Rattle.spf_export.specs.Pem.{block, boundary, lines_of};

use base64::engine::general_purpose::STANDARD;
use std::alloc::{AllocError, Global};

/// How many characters a line has.
const LINE: usize = 64;

/// Appends a text in lines.
fn put_lines(out: &mut Vec<u8>, text: &[u8]) -> Result<(), AllocError>
    ensures { OnOk result (out.new.items ≡ out.old.items ++ lines_of text.now) }
{
    let mut rest = text;
    while !rest.is_empty() {
        let (line, after) = rest.split_at(LINE.min(rest.len()));
        out.extend_from_slice(line)?;
        out.extend_from_slice(b"\n")?;
        rest = after;
    }
    Ok(())
}

/// Appends a line that begins or ends a block.
#[tactic(auto, unfolding(crate::specs::Pem::boundary))]
fn put_boundary(out: &mut Vec<u8>, words: &[u8], label: &str) -> Result<(), AllocError>
    ensures { OnOk result (out.new.items ≡ out.old.items ++ boundary words.now label.now) }
{
    out.extend_from_slice(words)?;
    out.extend_from_slice(label.as_bytes())?;
    out.extend_from_slice(b"-----\n")
}

/// Appends a block with this label.
pub(crate) fn put_block(
    alloc: Global,
    out: &mut Vec<u8>,
    label: &str,
    der: &[u8],
) -> Result<(), AllocError>
    ensures { OnOk result (out.new.items ≡ out.old.items ++ block label.now der.now) }
{
    let text = STANDARD.encode(alloc, der)?;
    put_boundary(out, b"-----BEGIN ", label)?;
    put_lines(out, text.as_bytes())?;
    put_boundary(out, b"-----END ", label)?;
    Ok(())
}

/// A single block.
pub(crate) fn single_block(alloc: Global, label: &str, der: &[u8]) -> Result<Vec<u8>, AllocError>
    ensures { IfOk result (λ v. v.items ≡ block label.now der.now) }
{
    let mut out = Vec::new(alloc);
    put_block(alloc, &mut out, label, der)?;
    Ok(out)
}
