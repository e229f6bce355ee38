// Words from the bytes of a recording on disk.
ghost use Rattle.std.specs.Prelude.{◌≡◌, IfOk};
ghost use Rattle.router.specs.Pairs.{words_in};

use std::alloc::{AllocError, Global};

// The words, the low byte of each first.
pub fn words_in(heap: Global, bytes: &[u8]) -> Result<Vec<u16>, AllocError>
    ensures answer { IfOk result (λ v. v.items ≡ words_in bytes.now) }
{
    let mut words = Vec::new(heap);
    let mut rest = bytes;
    while let [low, high, after @ ..] = rest {
        words.push(u16::from_le_bytes([*low, *high]))?;
        rest = after;
    }
    Ok(words)
}
