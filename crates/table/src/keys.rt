// Keys of a table: the number of a key.
ghost use Rattle.std.specs.Prelude.{◌≡◌};
ghost use Rattle.table.specs.Keys.{key_index, known_key, key_found};

use crate::flat::Table;

impl Table {
    // The number of a key among the keys of the table, where it is one of them.
    pub fn find(&self, key: &[u8]) -> Option<u8>
        ensures { result ≡ key_index self.now key.now }
    {
        (0..self.keys()).find(|k| self.key_text(usize::from(*k)) == key)
    }

    // The number of the key of which `len` characters are kept, where it is a key of the table.
    fn known(&self, key: &[u8; 32], len: u8) -> Option<u8>
        ensures { result ≡ known_key self.now key.now len }
    {
        let n = len as usize;
        if 32 < n {
            return None;
        }
        self.find(&key[..n])
    }

    // That number as a frame stores it: 255 stands for a key that the table doesn't have.
    // Stays: a number, which is what `frame::key_level` takes: any above 127 is that of an unknown key there, so that an Option would be tested first and
    // its number then.
    pub fn number(&self, key: &[u8; 32], len: u8) -> u8
        ensures { result ≡ key_found self.now key.now len }
    {
        self.known(key, len).unwrap_or(255)
    }
}
