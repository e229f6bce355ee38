// The call of `host` for C: a static library with its one export. No crate can use a static library, and so there are two.
#![tactic(auto)]

ghost use Rattle.std.specs.Prelude.{◌≡◌};
ghost use Rattle.host.specs.Hosts.{host_answer};

// 1 for a hit, 0 for none, or the number of the first fault times 4,294,967,296 and its place.
#[unsafe(no_mangle)]
pub extern "C" fn lozghemi_hit(vocabulary: &[u8], filter: &[u8], message: &[u8]) -> u64
    ensures answer { result ≡ host_answer vocabulary.now filter.now message.now }
{
    host::lozghemi_hit(vocabulary, filter, message)
}
