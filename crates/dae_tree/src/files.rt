// The tree of a file, with its names, literals and headers.

ghost use Rattle.std.specs.Prelude.{◌≡◌};
ghost use Rattle.dae_tree.specs.Files.{IsFile, contents_include};

use crate::headers::Header;
use crate::statements::External;
use crate::tokens::Includes;
use dae_base::Items;
use std::marker::Model;

/// A file: what it declares and defines, the bytes of its names and literals, and the headers that it includes. Its tree is of the grammar within the limits, with its names and literals numbered (`IsFile`).
#[derive(Drop)]
pub struct File {
    externals: Items<External>,
    names: Items<Items<u8>>,
    literals: Items<Items<u8>>,
    includes: Includes,
}

impl Model for File {
    ghost use Rattle.dae_tree.specs.Files.{FileContents, IsFile};
    ghost use Rattle.dae_tree.specs.contracts.statements.External as e;
    ghost use Rattle.std.specs.Coded.{codes};

    ghost Value = { FileContents };

    ghost coded = { Prim.hlevel (codes, e.the_row.coded) };

    ghost view = { λ f. record {
      externals = f.externals;
      names = f.names;
      literals = f.literals;
      stdio = f.includes.stdio;
      stdlib = f.includes.stdlib;
    } };

    ghost invariant = { λ f. IsFile (record {
      externals = f.externals;
      names = f.names;
      literals = f.literals;
      stdio = f.includes.stdio;
      stdlib = f.includes.stdlib;
    }) };
}

impl File {
    /// A file, from its parts.
    pub fn new(
        externals: Items<External>,
        names: Items<Items<u8>>,
        literals: Items<Items<u8>>,
        includes: Includes,
    ) -> File
        requires { IsFile
            (record {
              externals = externals;
              names = names;
              literals = literals;
              stdio = includes.stdio;
              stdlib = includes.stdlib;
            }) }
        ensures { result
            ≡ record {
              externals = externals;
              names = names;
              literals = literals;
              stdio = includes.stdio;
              stdlib = includes.stdlib;
            } }
    {
        File {
            externals,
            names,
            literals,
            includes,
        }
    }

    /// What the file declares and defines, in order.
    pub fn externals(&self) -> &[External]
        ensures value { result.now ≡ self.now.externals }
        ensures file { IsFile self.now }
    {
        self.externals.as_slice()
    }

    /// The bytes of each name, in the order of their numbers. No name stands twice.
    pub fn names(&self) -> &[Items<u8>]
        ensures { result.now ≡ self.now.names }
    {
        self.names.as_slice()
    }

    /// The bytes of each literal, in the order of their numbers, without the zero byte at its end.
    pub fn literals(&self) -> &[Items<u8>]
        ensures { result.now ≡ self.now.literals }
    {
        self.literals.as_slice()
    }

    /// Whether the file includes a header.
    pub fn includes(&self, header: Header) -> bool
        ensures { result ≡ contents_include header self.now }
    {
        match header {
            Header::Stdio => self.includes.stdio,
            Header::Stdlib => self.includes.stdlib,
        }
    }
}
