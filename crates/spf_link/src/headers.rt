//! The headers of a request.

ghost use Rattle.std.specs.Prelude.{◌≡◌, [], IfOk, OnOk, OnErr, position, bytes_eq};
ghost use Rattle.std.specs.Option.{option_copied};
ghost use Rattle.spf_link.specs.Headers.{Header, value_in, without, with_header};

use spf_io::{OutOfMemory, Text};
use std::alloc::Global;
use std::marker::Model;

/// Names and values, each name once, in the order in which they were first set. Contracts see the
/// list of pairs.
#[derive(Drop)]
pub struct Headers {
    alloc: Global,
    entries: Vec<(Text, Text)>,
}

impl Model for Headers {
    ghost use Rattle.std.specs.Prelude.{List};
    ghost use Rattle.spf_link.specs.Headers.{Header};

    ghost Value = { List Header };

    ghost view = { λ h. h.entries.items };
}

/// Copies of names and values.
fn copies_of(alloc: Global, entries: &[(Text, Text)]) -> Result<Vec<(Text, Text)>, OutOfMemory>
    ensures { IfOk result (λ v. v.items ≡ entries.now) }
{
    let mut copies = Vec::with_capacity(alloc, entries.len())?;
    for (name, value) in entries {
        copies.push((name.try_clone(alloc)?, value.try_clone(alloc)?))?;
    }
    Ok(copies)
}

fn is_named(entry: &(Text, Text), name: &str) -> bool
    ensures { result ≡ bytes_eq entry.now.0 name.now }
{
    entry.0.as_str() == name
}

impl Headers {
    /// Returns an empty list of headers.
    pub fn new(alloc: Global) -> Headers
        ensures { result ≡ [] }
    {
        Headers {
            alloc,
            entries: Vec::new(alloc),
        }
    }

    /// Returns the value of a name.
    pub fn get(&self, name: &str) -> Option<&str>
        ensures { option_copied result ≡ value_in name.now self.now }
    {
        let mut rest = self.entries.as_slice();
        while let Some((entry, others)) = rest.split_first() {
            if is_named(entry, name) {
                return Some(entry.1.as_str());
            }
            rest = others;
        }
        None
    }

    /// Removes the name and its value, where it is there.
    pub fn remove(&mut self, name: &str)
        ensures { self.new ≡ without name.now self.old }
    {
        match self.index_of(name) {
            Some(index) => {
                self.entries.remove(index);
            }
            None => {}
        }
    }

    fn index_of(&self, name: &str) -> Option<usize>
        ensures { result ≡ position (λ (h : Header). bytes_eq h.0 name.now) self.now }
    {
        self.entries.iter().position(|entry| is_named(entry, name))
    }

    /// Sets the value of the name, in place of the one that was there.
    pub fn set(&mut self, name: &str, value: &str) -> Result<(), OutOfMemory>
        ensures ok { OnOk result (self.new ≡ with_header name.now value.now self.old) }
        ensures err { OnErr result (self.new ≡ self.old) }
    {
        let text = Text::copy_of(self.alloc, value)?;
        match self.index_of(name) {
            Some(index) => {
                let entry = &mut self.entries[index];
                entry.1 = text;
            }
            None => self.entries.push((Text::copy_of(self.alloc, name)?, text))?,
        }
        Ok(())
    }

    /// Returns a copy of the headers over their own allocator.
    pub(crate) fn try_copy(&self) -> Result<Headers, OutOfMemory>
        ensures { IfOk result (λ h. h ≡ self.now) }
    {
        self.try_clone(self.alloc)
    }

    /// Returns a copy of the headers.
    pub fn try_clone(&self, alloc: Global) -> Result<Headers, OutOfMemory>
        ensures { IfOk result (λ h. h ≡ self.now) }
    {
        Ok(Headers {
            alloc,
            entries: copies_of(alloc, self.entries.as_slice())?,
        })
    }

    /// Returns the names and values.
    pub fn entries(&self) -> &[(Text, Text)]
        ensures { result.now ≡ self.now }
    {
        self.entries.as_slice()
    }
}
