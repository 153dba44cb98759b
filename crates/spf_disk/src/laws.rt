//! Laws of the definitions that contracts cite. No law has a body: its contract is its statement.

ghost use Rattle.std.specs.Prelude.{◌≡◌, ◌<◌, ℕ, List, Some, get_or};
ghost use Rattle.spf_disk.specs.declared.generation.Entry.{Entry};
ghost use Rattle.spf_disk.specs.Format.{entry_at, entry_text};

/// The bytes that are read as an entry are its text: an entry has one form.
pub fn an_entry_has_one_text()
    ensures { (bytes : List ℕ) (e : Entry) → ((i : ℕ) → get_or bytes i 0 < 256)
        → entry_at bytes ≡ Some e → bytes ≡ entry_text e }
{}
