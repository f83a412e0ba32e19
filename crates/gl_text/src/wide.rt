// The first bytes of a kind, looked for eight bytes at a time: a chunk of eight is asked as a whole, with no early end, so that its bytes
// are compared side by side, and only from the first chunk on that has such a byte are the bytes looked at one by one.
ghost use Rattle.std.specs.Prelude.{◌≡◌, ◌≤◌, not, false, length, take};
ghost use Rattle.std.specs.List.{position, list_any};
ghost use Rattle.gl_text.specs.Text.{is_blank, is_hash, is_unprintable};

// Whether one of eight bytes is not printable.
fn chunk_has_unprintable(chunk: &[u8; 8]) -> bool
    ensures { result ≡ list_any is_unprintable chunk.now }
{
    chunk
        .iter()
        .fold(false, |any, b| any | !((32 <= *b) & (*b <= 126)))
}

// The place of the first chunk that has a byte which is not printable.
fn unprintable_chunk(chunks: &[[u8; 8]]) -> Option<usize>
    ensures { result ≡ position (list_any is_unprintable) chunks.now }
{
    chunks.iter().position(|c| chunk_has_unprintable(c))
}

// How many bytes stand before that chunk, or in all chunks.
fn printable_front(text: &[u8]) -> usize
    ensures within { result ≤ length text.now }
    ensures none { list_any is_unprintable (take result text.now) ≡ false }
{
    let (chunks, _) = text.as_chunks::<8>();
    unprintable_chunk(chunks).unwrap_or(chunks.len()) * 8
}

// The place of the first byte that is not printable, byte by byte.
fn unprintable_near(text: &[u8]) -> Option<usize>
    ensures { result ≡ position is_unprintable text.now }
{
    text.iter().position(|b| !matches!(b, 32..=126))
}

/// The place of the first byte that is not printable.
pub(crate) fn unprintable_at(text: &[u8]) -> Option<usize>
    ensures { result ≡ position is_unprintable text.now }
{
    let from = printable_front(text);
    match unprintable_near(&text[from..]) {
        Some(more) => Some(from + more),
        None => None,
    }
}

// Whether one of eight bytes is a `#`.
fn chunk_has_hash(chunk: &[u8; 8]) -> bool
    ensures { result ≡ list_any is_hash chunk.now }
{
    chunk.iter().fold(false, |any, b| any | (*b == b'#'))
}

// The place of the first chunk that has a `#`.
fn hash_chunk(chunks: &[[u8; 8]]) -> Option<usize>
    ensures { result ≡ position (list_any is_hash) chunks.now }
{
    chunks.iter().position(|c| chunk_has_hash(c))
}

// How many bytes stand before that chunk, or in all chunks.
fn hashless_front(text: &[u8]) -> usize
    ensures within { result ≤ length text.now }
    ensures none { list_any is_hash (take result text.now) ≡ false }
{
    let (chunks, _) = text.as_chunks::<8>();
    hash_chunk(chunks).unwrap_or(chunks.len()) * 8
}

// The place of the first `#`, byte by byte.
fn hash_near(text: &[u8]) -> Option<usize>
    ensures { result ≡ position is_hash text.now }
{
    text.iter().position(|b| *b == b'#')
}

/// The place of the first `#`.
pub(crate) fn hash_at(text: &[u8]) -> Option<usize>
    ensures { result ≡ position is_hash text.now }
{
    let from = hashless_front(text);
    match hash_near(&text[from..]) {
        Some(more) => Some(from + more),
        None => None,
    }
}

// Whether one of eight bytes is no blank.
fn chunk_has_word(chunk: &[u8; 8]) -> bool
    ensures { result ≡ list_any (λ b. not (is_blank b)) chunk.now }
{
    chunk
        .iter()
        .fold(false, |any, b| any | !((*b == b' ') | (*b == b'\t')))
}

// The place of the first chunk that has a byte which is no blank.
fn word_chunk(chunks: &[[u8; 8]]) -> Option<usize>
    ensures { result ≡ position (list_any (λ b. not (is_blank b))) chunks.now }
{
    chunks.iter().position(|c| chunk_has_word(c))
}

// How many bytes stand before that chunk, or in all chunks.
fn blank_front(text: &[u8]) -> usize
    ensures within { result ≤ length text.now }
    ensures none { list_any (λ b. not (is_blank b)) (take result text.now) ≡ false }
{
    let (chunks, _) = text.as_chunks::<8>();
    word_chunk(chunks).unwrap_or(chunks.len()) * 8
}

// The place of the first byte that is no blank, byte by byte.
fn word_near(text: &[u8]) -> Option<usize>
    ensures { result ≡ position (λ b. not (is_blank b)) text.now }
{
    text.iter().position(|b| !matches!(b, b' ' | b'\t'))
}

/// The place of the first byte that is no blank.
pub(crate) fn word_at(text: &[u8]) -> Option<usize>
    ensures { result ≡ position (λ b. not (is_blank b)) text.now }
{
    let from = blank_front(text);
    match word_near(&text[from..]) {
        Some(more) => Some(from + more),
        None => None,
    }
}
