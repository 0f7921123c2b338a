ghost use Rattle.std.specs.Prelude.{◌≡◌, [], ◌∷◌, ◌++◌, OnOk, OnErr};

use opt_base::{Blob, OutOfMemory};
use std::alloc::Global;
use std::marker::Model;

/// A path, and the bytes that are put there.
#[derive(Debug, Drop)]
pub struct Put {
    path: String,
    bytes: Blob,
}

impl Model for Put {
    ghost use Rattle.std.specs.Prelude.{List, ℕ, string_bytes};

    ghost Value = { List ℕ × List ℕ };

    ghost view = { λ p. (string_bytes p.path, p.bytes) };
}

impl Put {
    /// The path.
    pub fn path(&self) -> &str
        ensures { result.now ≡ self.now.0 }
    {
        self.path.as_str()
    }

    /// The bytes.
    pub fn bytes(&self) -> &[u8]
        ensures { result.now ≡ self.now.1 }
    {
        self.bytes.as_slice()
    }
}

/// What a command answers with: its status, the files that it puts in order, and the bytes for `out` and `err`. It uses
/// the allocator that it was made with.
#[derive(Debug, Drop)]
pub struct Reply {
    alloc: Global,
    status: u8,
    puts: Vec<Put>,
    printed: Vec<u8>,
    refused: Vec<u8>,
}

impl Model for Reply {
    ghost use Rattle.opt_reply.specs.Answer.{Answer};

    ghost Value = { Answer };

    ghost view = { λ r. record {
      status = r.status;
      puts = r.puts.items;
      printed = r.printed.items;
      refused = r.refused.items;
    } };
}

impl Reply {
    /// This status, and nothing to put or to write yet.
    pub fn new(alloc: Global, status: u8) -> Reply
        ensures { result ≡ record { status = status; puts = []; printed = []; refused = [] } }
    {
        Reply {
            alloc,
            status,
            puts: Vec::new(alloc),
            printed: Vec::new(alloc),
            refused: Vec::new(alloc),
        }
    }

    /// Puts these bytes at the path, after the earlier puts. After an error the reply is as before.
    pub fn add_put(&mut self, path: &str, bytes: Blob) -> Result<(), OutOfMemory>
        ensures ok { OnOk result (self.new ≡ record self.old { puts = self.old.puts ++ (path.now, bytes) ∷ [] }) }
        ensures err { OnErr result (self.new ≡ self.old) }
    {
        let path = String::from_str(self.alloc, path)?;
        self.puts.push(Put { path, bytes })?;
        Ok(())
    }

    /// Writes these bytes to `out`, after the earlier ones. After an error the reply is as before.
    pub fn print(&mut self, bytes: &[u8]) -> Result<(), OutOfMemory>
        ensures ok { OnOk result (self.new ≡ record self.old { printed = self.old.printed ++ bytes.now }) }
        ensures err { OnErr result (self.new ≡ self.old) }
    {
        self.printed.extend_from_slice(bytes)?;
        Ok(())
    }

    /// Writes these bytes to `err`, after the earlier ones. After an error the reply is as before.
    pub fn refuse(&mut self, bytes: &[u8]) -> Result<(), OutOfMemory>
        ensures ok { OnOk result (self.new ≡ record self.old { refused = self.old.refused ++ bytes.now }) }
        ensures err { OnErr result (self.new ≡ self.old) }
    {
        self.refused.extend_from_slice(bytes)?;
        Ok(())
    }

    /// The status.
    pub(crate) fn status(&self) -> u8
        ensures { result ≡ self.now.status }
    {
        self.status
    }

    /// The puts, in order.
    pub(crate) fn puts(&self) -> &[Put]
        ensures { result.now ≡ self.now.puts }
    {
        self.puts.as_slice()
    }

    /// The bytes for `out`.
    pub(crate) fn printed(&self) -> &[u8]
        ensures { result.now ≡ self.now.printed }
    {
        self.printed.as_slice()
    }

    /// The bytes for `err`.
    pub(crate) fn refused(&self) -> &[u8]
        ensures { result.now ≡ self.now.refused }
    {
        self.refused.as_slice()
    }
}
