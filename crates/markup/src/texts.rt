// White space, text, and the ends of comments and instructions, by fixed bytes.
ghost use Rattle.std.specs.Prelude.{◌≡◌, ◌≤◌, length};
ghost use Rattle.std.specs.List.{prefix_len};
ghost use Rattle.markup.specs.Bytes.{white};
ghost use Rattle.markup.specs.Runs.{first_from, is_text, mark_bytes};

// What stands at the end of a comment, and of an instruction.
#[derive(Clone, Copy, Debug, PartialEq, Eq)]
pub enum Mark {
    Comment,
    Instruction,
}

#[tactic(auto, unfolding(crate::specs::Bytes::white))]
pub fn is_white(byte: u8) -> bool
    ensures answer { result ≡ white byte }
{
    matches!(byte, b' ' | b'\t' | b'\r' | b'\n')
}

// How many bytes come before the first `<`.
pub fn text_len(rest: &[u8]) -> usize
    ensures answer { result ≡ prefix_len is_text rest.now }
    ensures within { result ≤ length rest.now }
{
    rest.iter().take_while(|byte| **byte != b'<').count()
}

impl Mark {
    pub fn bytes(self) -> &'static [u8]
        ensures answer { result.now ≡ mark_bytes self }
    {
        match self {
            Mark::Comment => b"-->",
            Mark::Instruction => b"?>",
        }
    }

    // The index of the first such mark.
    #[tactic(auto, using(crate::proofs::Marks::passes))]
    pub fn first_in(self, rest: &[u8]) -> Option<usize>
        ensures answer { result ≡ first_from (mark_bytes self) 0 rest.now }
    {
        // not by windows: they want a length that is not 0, which a slice does not say
        let mark = self.bytes();
        for n in 0..rest.len() {
            if rest[n..].starts_with(mark) {
                return Some(n);
            }
        }
        None
    }
}
