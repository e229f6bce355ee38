// One call for a host: does this filter hit this message? The crate host_c hands it to hosts in C.
#![tactic(auto)]

ghost use Rattle.std.specs.Prelude.{◌≡◌};
ghost use Rattle.host.specs.Hosts.{asked, host_answer};

use filter_text::parse_filter;
use message::hit;
use vocabulary::{Fault, Vocabulary};
use xml::TextReader;

// Whether the filter hits, or the first fault of the vocabulary, the filter or the message, in this order.
fn ask(vocabulary: &[u8], filter: &[u8], message: &[u8]) -> Result<bool, Fault>
    ensures answer { result ≡ asked vocabulary.now filter.now message.now }
{
    let names = Vocabulary::try_from(vocabulary)?;
    let steps = parse_filter(filter, &names)?;
    let mut source = TextReader::new(message, &names);
    hit(&steps, &mut source)
}

// As C is answered: 1 for a hit, 0 for none, or the number of the first fault times 4,294,967,296 and its place.
pub fn lozghemi_hit(vocabulary: &[u8], filter: &[u8], message: &[u8]) -> u64
    ensures answer { result ≡ host_answer vocabulary.now filter.now message.now }
{
    match ask(vocabulary, filter, message) {
        Ok(true) => 1,
        Ok(false) => 0,
        Err(fault) => u64::from(u8::from(fault.question)) * 4_294_967_296 + u64::from(fault.place),
    }
}
