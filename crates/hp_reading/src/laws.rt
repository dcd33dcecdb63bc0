//! Laws over definitions: public functions with empty bodies, whose clauses are what is proved.

ghost use Rattle.std.specs.Prelude.{◌≡◌, ◌<◌, ◌↔◌, ℕ, List, length, None, Some};
ghost use Rattle.hp_model.specs.declared.entries.Entry.{Entry};
ghost use Rattle.hp_model.specs.declared.platforms.Platform.{Platform};
ghost use Rattle.hp_reading.specs.Fault.{fault_of, IsRunsTrace};
ghost use Rattle.hp_reading.specs.Header.{head_of, IsHeader};
ghost use Rattle.hp_reading.specs.Lines.{entry_of, end_of};
ghost use Rattle.hp_reading.specs.Trace.{trace_of, TraceContent, IsTrace};
ghost use Rattle.hp_reading.specs.Written.{IsLine, IsEnd};

/// The texts that are read as an entry are exactly those that, with a line feed, are its line; and these are of entries that a line can say. So each
/// such entry has one line, and a line one entry.
pub fn entries_are_read_as_spelled()
    ensures { (text : List ℕ) (e : Entry) → (entry_of text ≡ Some e) ↔ IsLine text e }
{}

/// The texts that are read as an end line are exactly those that spell a number of entries of 64 bits.
pub fn ends_are_read_as_spelled()
    ensures { (text : List ℕ) (entries : ℕ) → (end_of text ≡ Some entries) ↔ IsEnd text entries }
{}

/// The texts that are read as a platform are exactly the headers of those that fit. So a header names one platform.
pub fn headers_are_read_as_spelled()
    ensures { (text : List ℕ) (p : Platform) → (head_of text ≡ Some p) ↔ IsHeader text p }
{}

/// The whole texts that are read, cut at their line feeds, are exactly the traces of platforms that fit and of entries that lines can say. So a text of
/// the grammar spells one platform and one list of entries.
pub fn traces_are_read_as_spelled()
    ensures { (text : List ℕ) (told : TraceContent) → (trace_of text ≡ Some told) ↔ IsTrace text told }
{}

/// The first fault of a text is none exactly where the text is the trace of a platform that fits and its entries are a run.
pub fn texts_without_fault_are_runs()
    ensures { (text : List ℕ) → (fault_of text ≡ None) ↔ IsRunsTrace text }
{}

/// A text that is read as an entry is below 100 bytes.
pub fn entry_lines_are_short()
    ensures { (text : List ℕ) (e : Entry) → entry_of text ≡ Some e → length text < 100 }
{}

/// A text that is read as a platform is below 12 KiB.
pub fn headers_are_short()
    ensures { (text : List ℕ) (p : Platform) → head_of text ≡ Some p → length text < 12288 }
{}
