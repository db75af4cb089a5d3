// Words out of bytes, low byte first.
#![tactic(auto)]

ghost use Rattle.std.specs.Prelude.{◌≡◌};
ghost use Rattle.spec_definitions.specs.Program.{words_of, read_bytes, cut_word};

// The bytes that count: the first 280.
fn read_bytes(bytes: &[u8]) -> &[u8]
    ensures { result.now ≡ read_bytes bytes.now }
{
    &bytes[..bytes.len().min(280)]
}

// Whether the bytes that count end within a word.
#[tactic(auto, unfolding(spec_definitions::specs::Program::cut_word))]
pub fn has_cut_word(bytes: &[u8]) -> bool
    ensures { result ≡ cut_word (read_bytes bytes.now) }
{
    read_bytes(bytes).len() % 4 != 0
}

// The whole words of the bytes that count, at the front of a lent array.
#[tactic(auto, using(crate::proofs::Words::length_read_most, crate::proofs::Words::words_whole))]
pub fn words_of<'a>(bytes: &[u8], words: &'a mut [u32; 70]) -> &'a [u32]
    ensures { result.now ≡ words_of (read_bytes bytes.now) }
{
    let (chunks, _) = read_bytes(bytes).as_chunks::<4>();
    for (i, &chunk) in chunks.iter().enumerate() {
        words[i] = u32::from_le_bytes(chunk);
    }
    &words[..chunks.len()]
}
