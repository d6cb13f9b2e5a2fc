// The reader that every byte of a plan is read through: it holds the bytes and its place.
#![tactic(auto)]

ghost use Rattle.std.specs.Prelude.{◌≡◌, ◌+◌, ◌<◌, length};
ghost use Rattle.base.specs.Bytes.{byte_at, word_at};

#[derive(Drop)]
pub struct Reader<'a> {
    pub bytes: &'a [u8],
    pub at: usize,
}

// The byte of a slice at a place inside it: the read that the reader stands on, with bytes and place apart.
#[tactic(auto, unfolding(base::specs::Bytes::byte_at))]
fn byte_of(b: &[u8], at: usize) -> usize
    requires { at < length b.now }
    ensures { (result ≡ byte_at b.now at) × (result < 256) }
{
    usize::from(b[at])
}

impl<'a> Reader<'a> {
    // The byte at the reader's place, which is inside its bytes.
    pub fn byte(self) -> usize
        requires { self.at < length self.bytes.now }
        ensures { (result ≡ byte_at self.entry.bytes.now self.entry.at) × (result < 256) }
    {
        byte_of(self.bytes, self.at)
    }
}

// The byte at a place inside the bytes. A reader is made here, so that whoever calls this needs only bytes and a place.
pub fn byte_inside(b: &[u8], at: usize) -> usize
    requires { at < length b.now }
    ensures { (result ≡ byte_at b.now at) × (result < 256) }
{
    Reader { bytes: b, at }.byte()
}

// The byte at a place, 0 past the end.
pub fn byte_at(b: &[u8], at: usize) -> usize
    ensures { (result ≡ byte_at b.now at) × (result < 256) }
{
    if at < b.len() { byte_inside(b, at) } else { 0 }
}

// The 16-bit number at a place, with 0 for bytes past the end.
pub fn word_at(b: &[u8], at: usize) -> usize
    ensures { (result ≡ word_at b.now at) × (result < 65536) }
{
    if at < b.len() {
        byte_at(b, at) * 256 + byte_at(b, at + 1)
    } else {
        0
    }
}

// The 16-bit number at a place, both of whose bytes are inside.
pub fn word_inside(b: &[u8], at: usize) -> usize
    requires { at + 1 < length b.now }
    ensures { (result ≡ word_at b.now at) × (result < 65536) }
{
    byte_inside(b, at) * 256 + byte_inside(b, at + 1)
}
