// Small types over vectors, which contracts see as lists.
ghost use Rattle.std.specs.Prelude.{◌≡◌, List, ℕ};

use std::marker::Model;

/// Bytes of a file, or of a name. Making it and giving the vector back take no memory.
#[derive(Drop, Debug)]
pub struct Bytes {
    bytes: Vec<u8>,
}

impl Model for Bytes {
    ghost Value = { List ℕ };

    ghost view = { λ b. b.bytes.items };
}

impl Bytes {
    pub fn new(bytes: Vec<u8>) -> Bytes
        ensures { result ≡ bytes.items }
    {
        Bytes { bytes }
    }

    pub fn as_slice(&self) -> &[u8]
        ensures { result.now ≡ self.now }
    {
        &self.bytes
    }

    pub fn into_vec(self) -> Vec<u8>
        ensures { result.items ≡ self }
    {
        self.bytes
    }
}

/// The bytes of a path, as they were handed in.
#[derive(Drop, Debug)]
pub struct FilePath {
    path: Vec<u8>,
}

impl Model for FilePath {
    ghost Value = { List ℕ };

    ghost view = { λ p. p.path.items };
}

impl FilePath {
    pub fn new(path: Vec<u8>) -> FilePath
        ensures { result ≡ path.items }
    {
        FilePath { path }
    }

    pub fn as_slice(&self) -> &[u8]
        ensures { result.now ≡ self.now }
    {
        &self.path
    }

    pub fn into_vec(self) -> Vec<u8>
        ensures { result.items ≡ self }
    {
        self.path
    }
}

/// The names of a directory's entries.
#[derive(Drop, Debug)]
pub struct NameList {
    names: Vec<Bytes>,
}

impl Model for NameList {
    ghost Value = { List (List ℕ) };

    ghost view = { λ n. n.names.items };
}

impl NameList {
    pub fn new(names: Vec<Bytes>) -> NameList
        ensures { result ≡ names.items }
    {
        NameList { names }
    }

    pub fn as_slice(&self) -> &[Bytes]
        ensures { result.now ≡ self.now }
    {
        &self.names
    }

    pub fn into_vec(self) -> Vec<Bytes>
        ensures { result.items ≡ self }
    {
        self.names
    }
}
