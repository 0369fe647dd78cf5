// The list of the keys that are committed in a block.
ghost use Rattle.std.specs.Prelude.{◌≡◌, ◌≤◌, ◌+◌, ◌++◌, length, vec_capacity, AllPairs, IsPermutation};
ghost use Rattle.chunk_index.specs.declared.form.CommittedKey.{CommittedKey};
ghost use Rattle.chunk_index.specs.Maps.{count_committed_in};
ghost use Rattle.chunk_index.specs.Listing.{key_in, keys_of, keys_in, block_keys};

use crate::entry::KeyEntry;
use crate::form::CommittedKey;
use crate::index::Index;
use crate::object::ObjectEntries;
use crate::shelf::Shelf;
use flash_tree::Key;

impl Index {
    /// Adds the keys that are committed in a block, with their pages, to a list that has room for them. It goes over the index
    /// once.
    pub fn committed_in_block(&self, block: u32, keys: &mut Vec<CommittedKey>)
        requires { length keys.old.items + count_committed_in self.now block ≤ vec_capacity keys.old }
        ensures items { keys.new.items ≡ keys.old.items ++ block_keys self.now block }
        ensures capacity { vec_capacity keys.old ≤ vec_capacity keys.new }
    {
        self.shelf.list_block(block, keys);
    }

    /// Lists the keys that are committed in a block, with their pages, in place of what the list held, in the order of the pages.
    /// It goes over the index once, and takes no memory.
    pub fn committed_by_page(&self, block: u32, keys: &mut Vec<CommittedKey>)
        requires { count_committed_in self.now block ≤ vec_capacity keys.old }
        ensures lists { IsPermutation (block_keys self.now block) keys.new.items }
        ensures rise { AllPairs (λ (a b : CommittedKey). a.at.page ≤ b.at.page) keys.new.items }
        ensures capacity { vec_capacity keys.old ≤ vec_capacity keys.new }
    {
        keys.clear();
        self.committed_in_block(block, keys);
        keys.sort_unstable_by_key(|committed| committed.at.page);
    }
}

impl Shelf {
    /// Adds the keys that are committed in a block to a list that has room for them.
    fn list_block(&self, block: u32, keys: &mut Vec<CommittedKey>)
        requires { length keys.old.items + length (keys_in block self.now.objects.entries) ≤ vec_capacity keys.old }
        ensures items { keys.new.items ≡ keys.old.items ++ keys_in block self.now.objects.entries }
        ensures capacity { vec_capacity keys.old ≤ vec_capacity keys.new }
    {
        for (object, entries) in &self.objects {
            entries.list_block(*object, block, keys);
        }
    }
}

impl ObjectEntries {
    /// Adds the keys of this object that are committed in a block to a list that has room for them.
    fn list_block(&self, object: u64, block: u32, keys: &mut Vec<CommittedKey>)
        requires { length keys.old.items + length (keys_of block object self.now.entries.items) ≤ vec_capacity keys.old }
        ensures items { keys.new.items ≡ keys.old.items ++ keys_of block object self.now.entries.items }
        ensures capacity { vec_capacity keys.old ≤ vec_capacity keys.new }
    {
        for entry in &self.entries {
            entry.unpack().list_block(object, block, keys);
        }
    }
}

impl KeyEntry {
    /// Adds the key of this entry, if it is committed in a block, to a list that has room for it.
    fn list_block(&self, object: u64, block: u32, keys: &mut Vec<CommittedKey>)
        requires { length keys.old.items + length (key_in block object self.now) ≤ vec_capacity keys.old }
        ensures items { keys.new.items ≡ keys.old.items ++ key_in block object self.now }
        ensures capacity { vec_capacity keys.old ≤ vec_capacity keys.new }
    {
        if let Some(at) = self.committed {
            if at.block == block {
                let chunk = self.chunk;
                let key = Key { object, chunk };
                let _ = keys.push(CommittedKey { key, at });
            }
        }
    }
}
