// The characters of the open key: a book's key has at most 32, each below 128.
ghost use Rattle.std.specs.Prelude.{◌≡◌};
ghost use Rattle.progress.specs.Act.{kept_key_len, kept_in};

// How many characters are kept after a finished one; 33 where it can be no key of a book.
pub fn key_len(len: u8, c: u32) -> u8
    ensures { result ≡ kept_key_len len c }
{
    if len < 32 && c < 128 { len + 1 } else { 33 }
}

// Keeps a character of the key where fewer than 32 are kept and there is room for it. Ruled out: a 33rd character that is kept.
pub fn keep_char(key: &mut [u8], len: u8, c: u8)
    ensures { key.new ≡ kept_in key.old len c }
{
    let at = usize::from(len);
    if at < 32 && at < key.len() {
        key[at] = c;
    }
}
