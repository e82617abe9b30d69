//! The reading of words as a call.
ghost use Rattle.std.specs.Prelude.{◌≡◌, ◌⊎◌, ◌≤◌, ◌<◌, ◌^◌, ℕ, Bool, List, Option, IfOk, IfErr, IfSome, IsSomeAnd, Some, codes, map, option_map, MatchResult};
ghost use Rattle.clap.specs.Words.{fault_of, first_of, found_of, HasKind, IsAmong, kind_of, rows_of, subcommand_of, subcommand_rows_of};
ghost use Rattle.clap.specs.declared.error.kind.ErrorKind.TheVariants.{InvalidValue, OutOfMemory};
ghost use Rattle.command_line.specs.Call.{Asked, InRange, IsFormatNumber, IsRowOf, SpellsIdentity, SpellsMode, asked_of, check, copy, deep, dump, format, fresh, mem, repair, salvage, serve, upgrade};
ghost use Rattle.command_line.specs.Options.{app, Holds, HoldsFlag, HoldsFormat, HoldsHistory, HoldsIdentity, HoldsMode, HoldsNumber, HoldsSize, IsMet, MayHold, Means, MeansWhy};
ghost use Rattle.command_line.specs.declared.limits.TheConstants.{MAX_BATCH, MAX_FORMAT, MAX_HISTORY, MAX_MODE, MAX_PUMP, MAX_SECTORS, MIN_FORMAT, MIN_SECTORS};

use crate::command::program;
use crate::limits::{
    HISTORY, MAX_BATCH, MAX_FORMAT, MAX_HISTORY, MAX_MEMORY_SECTORS, MAX_MODE, MAX_PUMP,
    MAX_SECTORS, MIN_FORMAT, MIN_SECTORS, NEW_SECTORS, OWNER_ALONE,
};
use crate::sizes::sectors_of_size;
use clap::error::ErrorKind;
use clap::{ArgMatches, Error};
use hex::FromHex;
use std::alloc::Global;

/// What the words ask the program to do.
#[derive(Clone, Copy)]
pub enum Call<'a> {
    /// Make a file of that many sectors, with an empty store of that format in it, 2 or 3, and with the permission bits
    /// of that mode. If it is `sparse`, its blocks are left to be allocated as they are written. `None`: its identity is
    /// to be drawn.
    Format {
        file: &'a str,
        sectors: u64,
        format: u64,
        mode: u32,
        sparse: bool,
        identity: Option<u128>,
    },
    /// Make a file of that many sectors, with an empty store of format 3 in it, which its owner alone may read and write.
    /// `None`: its identity is to be drawn.
    Fresh {
        file: &'a str,
        sectors: u64,
        identity: Option<u128>,
    },
    /// Serve lines over the store in a file. One commit takes up to `batch` changes, 1 for each by itself; after a
    /// change or a batch a step of a copy writes up to `pump` sectors, 0 for none; of the newest transactions up to `history` bytes are kept. If it is `strict`, a store whose last
    /// commit may be lost is refused.
    Serve {
        file: &'a str,
        batch: u64,
        pump: u64,
        history: u64,
        strict: bool,
    },
    /// Show the status of the store in a file, `strict` or not.
    Check {
        file: &'a str,
        strict: bool,
    },
    /// Open the store in a file, so that its commit slots are written anew, and show what they said and its status.
    Repair {
        file: &'a str,
    },
    /// Copy the store in a file, `strict` or not, into a new file of that many sectors, in that format, 2 or 3, with this
    /// identity. `None`: in the format that it has, and with an identity that is to be drawn.
    Copy {
        file: &'a str,
        new: &'a str,
        sectors: u64,
        format: Option<u64>,
        identity: Option<u128>,
        strict: bool,
    },
    /// Bring the store in a file, `strict` or not, to that format, 2 or 3, to format 3 with this identity.
    Upgrade {
        file: &'a str,
        format: u64,
        identity: Option<u128>,
        strict: bool,
    },
    /// Serve lines over a store in memory, on a device of that many sectors, in that format, 2 or 3. Of the newest
    /// transactions up to `history` bytes are kept.
    Mem {
        sectors: u64,
        format: u64,
        history: u64,
    },
    /// Read all of the store in a file, and say what is damaged.
    Deep {
        file: &'a str,
    },
    /// Write what can still be read of a damaged store in a file: its documents, or else each frame.
    Salvage {
        file: &'a str,
        frames: bool,
    },
    /// Write the documents of the store in a file that is only read, `strict` or not.
    Dump {
        file: &'a str,
        strict: bool,
    },
}

/// What the words ask the program to do, and to say.
#[derive(Clone, Copy)]
pub struct Order<'a> {
    /// The work that is asked for.
    pub call: Call<'a>,
    /// Whether the program says why a file isn't made or opened.
    pub why: bool,
}

/// Reads the words after the program's name.
///
/// The call is what the words mean to `clap`, however they are written: `--sectors=16`, or an option before FILE. If
/// `--format` is absent, its number is 2 for a new file or a store in memory and 3 for an upgrade, and a copy asks for none; the number of an absent `--batch` is 1, that of `--pump`
/// 0, that of `--history` 16,777,216, the mode is 0600, and the size of a file that `new` makes is 16 MiB. Refuses, by `clap`'s own errors, what is no call, an option or a flag that is given twice,
/// a number out of the range of its option, a mode that is no octal number up to 0777, a size that isn't digits with `K`, `M`, `G` or nothing after them, an identity that isn't 32 hexadecimal digits, a dump that isn't to be only
/// read, and a request for help; it also fails if memory runs out. Words that are a call's row fail only if memory runs out; in a row no file begins with a
/// hyphen, since such a word is read as an option.
pub fn order_of<'a>(alloc: Global, words: &'a [&'a str]) -> Result<Order<'a>, Error>
    ensures in_range { IfOk result (λ order. InRange (asked_of order.call)) }
    ensures sound { IfOk result (λ order. Means (subcommand_of app (map (λ w. w.now) words.entry.now)) (asked_of order.call)) }
    ensures why { IfOk result (λ order. MeansWhy (subcommand_of app (map (λ w. w.now) words.entry.now)) (asked_of order.call) order.why) }
    ensures row { (asked : Asked) (why : Bool) → InRange asked → IsRowOf (map (λ w. w.now) words.entry.now) asked why
        → MatchResult result (λ order. (asked_of order.call ≡ asked) × (order.why ≡ why)) (λ e. kind_of e ≡ OutOfMemory) }
    ensures err { IfErr result (λ e. (kind_of e ≡ OutOfMemory) ⊎ (kind_of e ≡ InvalidValue) ⊎ IsAmong (kind_of e) (fault_of app (map (λ w. w.now) words.entry.now))) }
{
    let matches = matches_of(alloc, words)?;
    match order_in(&matches) {
        Some(order) => Ok(order),
        None => Err(wrong_text(alloc, &matches)?),
    }
}

// The error for matches that mean no call: `clap` itself refuses all else that is none.
fn wrong_text(alloc: Global, matches: &ArgMatches) -> Result<Error, Error>
    ensures kind { IfOk result (λ e. kind_of e ≡ InvalidValue) }
    ensures memory { IfErr result (λ e. kind_of e ≡ OutOfMemory) }
{
    let text = match matches.subcommand() {
        Some((name, options)) => wrong_in(name, options),
        None => "no command",
    };
    Ok(program(alloc)?.error(ErrorKind::InvalidValue, text)?)
}

// What is wrong with the options of a command that mean no call.
fn wrong_in(name: &str, options: &ArgMatches) -> &'static str {
    if matches!(name, "dump") {
        "'dump' lacks '--read-only'"
    } else if size_in(options).is_none() {
        "the value of '--size' isn't a size such as 512K, 16M or 2G, up to 2048G"
    } else if mode_in(options).is_some() {
        "the value of '--id' isn't 32 hexadecimal digits"
    } else {
        "the value of '--mode' is no octal number up to 0777"
    }
}

// What the words mean to `clap`. The matches of words that are a call's row mean that call, and ask why as that row does.
fn matches_of<'a>(alloc: Global, words: &'a [&'a str]) -> Result<ArgMatches<'a>, Error>
    ensures meaning { IfOk result (λ m. subcommand_rows_of m ≡ subcommand_of app (map (λ w. w.now) words.entry.now)) }
    ensures row { (asked : Asked) (why : Bool) → InRange asked → IsRowOf (map (λ w. w.now) words.entry.now) asked why
        → MatchResult result (λ m. Means (subcommand_rows_of m) asked × MeansWhy (subcommand_rows_of m) asked why) (λ e. kind_of e ≡ OutOfMemory) }
    ensures err { IfErr result (HasKind (fault_of app (map (λ w. w.now) words.entry.now))) }
{
    let mut program = program(alloc)?;
    program.try_get_matches_from_mut(words)
}

// The call that the matches mean, and whether they ask why.
fn order_in<'a>(matches: &ArgMatches<'a>) -> Option<Order<'a>>
    ensures in_range { IfSome result (λ order. InRange (asked_of order.call)) }
    ensures sound { IfSome result (λ order. Means (subcommand_rows_of matches.now) (asked_of order.call)) }
    ensures why { IfSome result (λ order. MeansWhy (subcommand_rows_of matches.now) (asked_of order.call) order.why) }
    ensures meant { (asked : Asked) (why : Bool) → InRange asked → Means (subcommand_rows_of matches.now) asked → MeansWhy (subcommand_rows_of matches.now) asked why
        → IsSomeAnd result (λ order. (asked_of order.call ≡ asked) × (order.why ≡ why)) }
{
    let call = call_in(matches)?;
    let why = why_in(matches, &call)?;
    Some(Order { call, why })
}

// Whether the matches, which mean this call, ask why a file isn't made or opened.
fn why_in<'a>(matches: &ArgMatches<'a>, call: &Call<'a>) -> Option<bool>
    requires { Means (subcommand_rows_of matches.now) (asked_of call.now) }
    ensures sound { IfSome result (λ why. MeansWhy (subcommand_rows_of matches.now) (asked_of call.now) why) }
    ensures meant { (why : Bool) → MeansWhy (subcommand_rows_of matches.now) (asked_of call.now) why → result ≡ Some why }
{
    let (_, options) = matches.subcommand()?;
    match call {
        Call::Mem { .. } => Some(false),
        _ => flag_in(options, "why"),
    }
}

// The call that the matches mean.
fn call_in<'a>(matches: &ArgMatches<'a>) -> Option<Call<'a>>
    ensures in_range { IfSome result (λ call. InRange (asked_of call)) }
    ensures sound { IfSome result (λ call. Means (subcommand_rows_of matches.now) (asked_of call)) }
    ensures meant { (asked : Asked) → InRange asked → Means (subcommand_rows_of matches.now) asked → option_map asked_of result ≡ Some asked }
{
    let (name, options) = matches.subcommand()?;
    match name {
        "new" => fresh_in(options),
        "format" => format_in(options),
        "serve" => serve_in(options),
        "check" => check_in(options),
        "repair" => repair_in(options),
        "copy" => copy_in(options),
        "upgrade" => upgrade_in(options),
        "mem" => mem_in(options),
        "salvage" => salvage_in(options),
        "dump" => dump_in(options),
        _ => None,
    }
}

fn format_in<'a>(options: &ArgMatches<'a>) -> Option<Call<'a>>
    ensures in_range { IfSome result (λ call. InRange (asked_of call)) }
    ensures sound { IfSome result (λ call. IsMet (codes "format") (rows_of (found_of options.now)) (asked_of call)) }
    ensures meant { (file : List ℕ) (sectors version mode : ℕ) (sparse : Bool) (identity : Option ℕ) → InRange (format file sectors version mode sparse identity)
        → Holds (format file sectors version mode sparse identity) (rows_of (found_of options.now)) → option_map asked_of result ≡ Some (format file sectors version mode sparse identity) }
{
    let file = file_in(options)?;
    let sectors = sectors_in(options, MAX_SECTORS)?;
    let format = format_number(options, MIN_FORMAT)?;
    let mode = mode_in(options)?;
    let sparse = flag_in(options, "sparse")?;
    let identity = identity_in(options)?;
    Some(Call::Format {
        file,
        sectors,
        format,
        mode,
        sparse,
        identity,
    })
}

fn fresh_in<'a>(options: &ArgMatches<'a>) -> Option<Call<'a>>
    ensures in_range { IfSome result (λ call. InRange (asked_of call)) }
    ensures sound { IfSome result (λ call. IsMet (codes "new") (rows_of (found_of options.now)) (asked_of call)) }
    ensures meant { (file : List ℕ) (sectors : ℕ) (identity : Option ℕ) → InRange (fresh file sectors identity)
        → Holds (fresh file sectors identity) (rows_of (found_of options.now)) → option_map asked_of result ≡ Some (fresh file sectors identity) }
{
    let file = file_in(options)?;
    let sectors = size_in(options)?;
    let identity = identity_in(options)?;
    Some(Call::Fresh {
        file,
        sectors,
        identity,
    })
}

fn serve_in<'a>(options: &ArgMatches<'a>) -> Option<Call<'a>>
    ensures in_range { IfSome result (λ call. InRange (asked_of call)) }
    ensures sound { IfSome result (λ call. IsMet (codes "serve") (rows_of (found_of options.now)) (asked_of call)) }
    ensures meant { (file : List ℕ) (batch pump history : ℕ) (strict : Bool) → InRange (serve file batch pump history strict)
        → Holds (serve file batch pump history strict) (rows_of (found_of options.now)) → option_map asked_of result ≡ Some (serve file batch pump history strict) }
{
    let file = file_in(options)?;
    let batch = number_or(options, "batch", 1, MAX_BATCH)?;
    let pump = number_or(options, "pump", 0, MAX_PUMP)?;
    let history = history_in(options)?;
    let strict = flag_in(options, "strict")?;
    Some(Call::Serve {
        file,
        batch,
        pump,
        history,
        strict,
    })
}

fn check_in<'a>(options: &ArgMatches<'a>) -> Option<Call<'a>>
    ensures in_range { IfSome result (λ call. InRange (asked_of call)) }
    ensures sound { IfSome result (λ call. IsMet (codes "check") (rows_of (found_of options.now)) (asked_of call)) }
    ensures meant { (file : List ℕ) (strict : Bool) → Holds (check file strict) (rows_of (found_of options.now)) → option_map asked_of result ≡ Some (check file strict) }
    ensures meant_deep { (file : List ℕ) → Holds (deep file) (rows_of (found_of options.now)) → option_map asked_of result ≡ Some (deep file) }
{
    let file = file_in(options)?;
    let deep = flag_in(options, "deep")?;
    if deep {
        return Some(Call::Deep { file });
    }
    let strict = flag_in(options, "strict")?;
    Some(Call::Check { file, strict })
}

fn repair_in<'a>(options: &ArgMatches<'a>) -> Option<Call<'a>>
    ensures in_range { IfSome result (λ call. InRange (asked_of call)) }
    ensures sound { IfSome result (λ call. IsMet (codes "repair") (rows_of (found_of options.now)) (asked_of call)) }
    ensures meant { (file : List ℕ) → Holds (repair file) (rows_of (found_of options.now)) → option_map asked_of result ≡ Some (repair file) }
{
    let file = file_in(options)?;
    Some(Call::Repair { file })
}

fn copy_in<'a>(options: &ArgMatches<'a>) -> Option<Call<'a>>
    ensures in_range { IfSome result (λ call. InRange (asked_of call)) }
    ensures sound { IfSome result (λ call. IsMet (codes "copy") (rows_of (found_of options.now)) (asked_of call)) }
    ensures meant { (file new : List ℕ) (sectors : ℕ) (version identity : Option ℕ) (strict : Bool) → InRange (copy file new sectors version identity strict)
        → Holds (copy file new sectors version identity strict) (rows_of (found_of options.now)) → option_map asked_of result ≡ Some (copy file new sectors version identity strict) }
{
    let file = file_in(options)?;
    let new = new_in(options)?;
    let sectors = sectors_in(options, MAX_SECTORS)?;
    let format = format_asked(options)?;
    let identity = identity_in(options)?;
    let strict = flag_in(options, "strict")?;
    Some(Call::Copy {
        file,
        new,
        sectors,
        format,
        identity,
        strict,
    })
}

fn upgrade_in<'a>(options: &ArgMatches<'a>) -> Option<Call<'a>>
    ensures in_range { IfSome result (λ call. InRange (asked_of call)) }
    ensures sound { IfSome result (λ call. IsMet (codes "upgrade") (rows_of (found_of options.now)) (asked_of call)) }
    ensures meant { (file : List ℕ) (version : ℕ) (identity : Option ℕ) (strict : Bool) → InRange (upgrade file version identity strict)
        → Holds (upgrade file version identity strict) (rows_of (found_of options.now)) → option_map asked_of result ≡ Some (upgrade file version identity strict) }
{
    let file = file_in(options)?;
    let format = format_number(options, MAX_FORMAT)?;
    let identity = identity_in(options)?;
    let strict = flag_in(options, "strict")?;
    Some(Call::Upgrade {
        file,
        format,
        identity,
        strict,
    })
}

fn mem_in<'a>(options: &ArgMatches<'a>) -> Option<Call<'a>>
    ensures in_range { IfSome result (λ call. InRange (asked_of call)) }
    ensures sound { IfSome result (λ call. IsMet (codes "mem") (rows_of (found_of options.now)) (asked_of call)) }
    ensures meant { (sectors version history : ℕ) → InRange (mem sectors version history)
        → Holds (mem sectors version history) (rows_of (found_of options.now)) → option_map asked_of result ≡ Some (mem sectors version history) }
{
    let sectors = sectors_in(options, MAX_MEMORY_SECTORS)?;
    let format = format_number(options, MIN_FORMAT)?;
    let history = history_in(options)?;
    Some(Call::Mem {
        sectors,
        format,
        history,
    })
}

fn salvage_in<'a>(options: &ArgMatches<'a>) -> Option<Call<'a>>
    ensures in_range { IfSome result (λ call. InRange (asked_of call)) }
    ensures sound { IfSome result (λ call. IsMet (codes "salvage") (rows_of (found_of options.now)) (asked_of call)) }
    ensures meant { (file : List ℕ) (frames : Bool) → Holds (salvage file frames) (rows_of (found_of options.now)) → option_map asked_of result ≡ Some (salvage file frames) }
{
    let file = file_in(options)?;
    let frames = flag_in(options, "frames")?;
    Some(Call::Salvage { file, frames })
}

// A dump of a file that is only read. There is no other.
fn dump_in<'a>(options: &ArgMatches<'a>) -> Option<Call<'a>>
    ensures in_range { IfSome result (λ call. InRange (asked_of call)) }
    ensures sound { IfSome result (λ call. IsMet (codes "dump") (rows_of (found_of options.now)) (asked_of call)) }
    ensures meant { (file : List ℕ) (strict : Bool) → Holds (dump file strict) (rows_of (found_of options.now)) → option_map asked_of result ≡ Some (dump file strict) }
{
    let file = file_in(options)?;
    let read_only = flag_in(options, "read-only")?;
    let strict = flag_in(options, "strict")?;
    if read_only {
        Some(Call::Dump { file, strict })
    } else {
        None
    }
}

// The text of the file that the options name.
fn file_in<'a>(options: &ArgMatches<'a>) -> Option<&'a str>
    ensures { option_map (λ file. file.now) result ≡ first_of (codes "file") (rows_of (found_of options.now)) }
{
    options.get_str("file")
}

// The text of the new file that the options name.
fn new_in<'a>(options: &ArgMatches<'a>) -> Option<&'a str>
    ensures { option_map (λ new. new.now) result ≡ first_of (codes "new") (rows_of (found_of options.now)) }
{
    options.get_str("new")
}

// The number of sectors that the options hold, if it is in the range.
fn sectors_in(options: &ArgMatches, most: u64) -> Option<u64>
    ensures in_range { IfSome result (λ n. (MIN_SECTORS ≤ n) × (n ≤ most)) }
    ensures sound { IfSome result (λ n. HoldsNumber (codes "sectors") n (rows_of (found_of options.now))) }
    ensures held { (n : ℕ) → MIN_SECTORS ≤ n → n ≤ most → HoldsNumber (codes "sectors") n (rows_of (found_of options.now)) → result ≡ Some n }
{
    number_in(options, "sectors", MIN_SECTORS, most)
}

// The number of sectors of the size that the options give, if it is in the range, or its default if they give none.
fn size_in(options: &ArgMatches) -> Option<u64>
    ensures in_range { IfSome result (λ n. (MIN_SECTORS ≤ n) × (n ≤ MAX_SECTORS)) }
    ensures sound { IfSome result (λ n. HoldsSize n (rows_of (found_of options.now))) }
    ensures held { (n : ℕ) → MIN_SECTORS ≤ n → n ≤ MAX_SECTORS → HoldsSize n (rows_of (found_of options.now)) → result ≡ Some n }
{
    match options.get_str("size") {
        Some(text) => sectors_of_size(text),
        None => Some(NEW_SECTORS),
    }
}

// The number of the format that the options hold, if it is in the range, or its default if they hold none.
fn format_number(options: &ArgMatches, default: u64) -> Option<u64>
    requires oldest { MIN_FORMAT ≤ default }
    requires newest { default ≤ MAX_FORMAT }
    ensures in_range { IfSome result (λ n. (MIN_FORMAT ≤ n) × (n ≤ MAX_FORMAT)) }
    ensures sound { IfSome result (λ n. MayHold (codes "format") default n (rows_of (found_of options.now))) }
    ensures held { (n : ℕ) → MIN_FORMAT ≤ n → n ≤ MAX_FORMAT → MayHold (codes "format") default n (rows_of (found_of options.now)) → result ≡ Some n }
{
    match options.get_str("format") {
        Some(_) => number_in(options, "format", MIN_FORMAT, MAX_FORMAT),
        None => Some(default),
    }
}

// The number of the format that the options ask for, if it is in the range, or that they ask for none.
fn format_asked(options: &ArgMatches) -> Option<Option<u64>>
    ensures in_range { IfSome result (λ format. IfSome format IsFormatNumber) }
    ensures sound { IfSome result (λ format. HoldsFormat format (rows_of (found_of options.now))) }
    ensures held { (format : Option ℕ) → IfSome format IsFormatNumber → HoldsFormat format (rows_of (found_of options.now)) → result ≡ Some format }
{
    match options.get_str("format") {
        Some(_) => Some(Some(number_in(options, "format", MIN_FORMAT, MAX_FORMAT)?)),
        None => Some(None),
    }
}

// The bytes of the newest transactions that the options hold, if they are in the range, or their default if they hold none.
fn history_in(options: &ArgMatches) -> Option<u64>
    ensures in_range { IfSome result (λ n. n ≤ MAX_HISTORY) }
    ensures sound { IfSome result (λ n. HoldsHistory n (rows_of (found_of options.now))) }
    ensures held { (n : ℕ) → n ≤ MAX_HISTORY → HoldsHistory n (rows_of (found_of options.now)) → result ≡ Some n }
{
    match options.get_str("history") {
        Some(_) => number_in(options, "history", 0, MAX_HISTORY),
        None => Some(HISTORY),
    }
}

// The mode that the options give, in octal, if it has permission bits alone, or its default if they give none.
fn mode_in(options: &ArgMatches) -> Option<u32>
    ensures in_range { IfSome result (λ mode. mode ≤ MAX_MODE) }
    ensures sound { IfSome result (λ mode. HoldsMode mode (rows_of (found_of options.now))) }
    ensures held { (mode : ℕ) → mode ≤ MAX_MODE → HoldsMode mode (rows_of (found_of options.now)) → result ≡ Some mode }
{
    match options.get_str("mode") {
        Some(text) => octal(text),
        None => Some(OWNER_ALONE),
    }
}

// The mode that a text spells in octal.
fn octal(text: &str) -> Option<u32>
    ensures in_range { IfSome result (λ mode. mode ≤ MAX_MODE) }
    ensures sound { IfSome result (λ mode. SpellsMode text.now mode) }
    ensures held { (mode : ℕ) → mode ≤ MAX_MODE → SpellsMode text.now mode → result ≡ Some mode }
{
    match u32::from_str_radix(text, 8) {
        Ok(mode) if mode <= MAX_MODE => Some(mode),
        _ => None,
    }
}

// The identity that the options give, if it is 32 hexadecimal digits, or that they give none.
fn identity_in(options: &ArgMatches) -> Option<Option<u128>>
    ensures sound { IfSome result (λ identity. HoldsIdentity identity (rows_of (found_of options.now))) }
    ensures held { (identity : Option ℕ) → HoldsIdentity identity (rows_of (found_of options.now)) → result ≡ Some identity }
{
    match options.get_str("id") {
        Some(text) => Some(Some(identity_of(text)?)),
        None => Some(None),
    }
}

// The identity that a text spells.
fn identity_of(text: &str) -> Option<u128>
    ensures sound { IfSome result (SpellsIdentity text.now) }
    ensures held { (identity : ℕ) → SpellsIdentity text.now identity → result ≡ Some identity }
{
    match <[u8; 16] as FromHex>::from_hex(text) {
        Ok(bytes) => Some(u128::from_be_bytes(bytes)),
        Err(_) => None,
    }
}

// Whether the flag of that name is set.
fn flag_in(options: &ArgMatches, name: &str) -> Option<bool>
    ensures sound { IfSome result (λ set. HoldsFlag name.now set (rows_of (found_of options.now))) }
    ensures held { (set : Bool) → HoldsFlag name.now set (rows_of (found_of options.now)) → result ≡ Some set }
{
    options.get_one::<bool>(name)
}

// The number that the options hold for the option of that name, if it is in the range from 1 on, or its default if they
// hold none.
fn number_or(options: &ArgMatches, name: &str, default: u64, most: u64) -> Option<u64>
    requires small { default ≤ 1 }
    requires room { default ≤ most }
    ensures in_range { IfSome result (λ n. (default ≤ n) × (n ≤ most)) }
    ensures sound { IfSome result (λ n. MayHold name.now default n (rows_of (found_of options.now))) }
    ensures held { (n : ℕ) → n ≤ most → MayHold name.now default n (rows_of (found_of options.now)) → result ≡ Some n }
{
    match options.get_str(name) {
        Some(_) => number_in(options, name, 1, most),
        None => Some(default),
    }
}

// The number that the options hold for the option of that name, if it is in the range.
fn number_in(options: &ArgMatches, name: &str, least: u64, most: u64) -> Option<u64>
    ensures in_range { IfSome result (λ n. (least ≤ n) × (n ≤ most)) }
    ensures sound { IfSome result (λ n. HoldsNumber name.now n (rows_of (found_of options.now))) }
    ensures held { (n : ℕ) → least ≤ n → n ≤ most → HoldsNumber name.now n (rows_of (found_of options.now)) → result ≡ Some n }
{
    let number = number_given(options, name)?;
    if least <= number && number <= most {
        Some(number)
    } else {
        None
    }
}

fn number_given(options: &ArgMatches, name: &str) -> Option<u64>
    ensures sound { IfSome result (λ n. HoldsNumber name.now n (rows_of (found_of options.now))) }
    ensures held { (n : ℕ) → n < 2 ^ 64 → HoldsNumber name.now n (rows_of (found_of options.now)) → result ≡ Some n }
{
    options.get_one::<u64>(name)
}
