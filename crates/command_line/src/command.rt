//! The commands and options that `clap` reads.
ghost use Rattle.std.specs.Prelude.{◌≡◌, IfOk, IfErr, codes, false};
ghost use Rattle.clap.specs.Words.{app_of, kind_of, rule_of, shape_of};
ghost use Rattle.clap.specs.declared.error.kind.ErrorKind.TheVariants.{OutOfMemory};
ghost use Rattle.clap.specs.declared.builder.command.Command.TheViews.{out-Command as fields_of};
ghost use Rattle.command_line.specs.Options.{app, batch_rule, check_shape, copy_shape, dump_shape, file_rule, flag_rule, format_rule, format_shape, fresh_shape, history_rule, identity_rule, mem_shape, mode_rule, option_rule, pump_rule, repair_shape, salvage_shape, sectors_up_to, serve_shape, size_rule, strict_rule, target_rule, upgrade_shape, why_rule};
ghost use Rattle.command_line.specs.declared.limits.TheConstants.{MAX_BATCH, MAX_HISTORY, MAX_MEMORY_SECTORS, MAX_PUMP, MAX_SECTORS};

use crate::limits::{
    MAX_BATCH, MAX_FORMAT, MAX_HISTORY, MAX_MEMORY_SECTORS, MAX_PUMP, MAX_SECTORS, MIN_FORMAT,
    MIN_SECTORS,
};
use crate::version::VERSION;
use clap::{Arg, ArgAction, Command, Error, value_parser};
use std::alloc::Global;

fn file_argument<'a>(alloc: Global, help: &'a str) -> Arg<'a>
    ensures rule { rule_of result ≡ file_rule }
    ensures local { result.global ≡ false }
{
    Arg::new(alloc, "file")
        .value_name("FILE")
        .help(help)
        .required(true)
        .action(ArgAction::Set)
}

fn new_argument<'a>(alloc: Global) -> Arg<'a>
    ensures rule { rule_of result ≡ target_rule }
    ensures local { result.global ≡ false }
{
    Arg::new(alloc, "new")
        .value_name("NEW")
        .help("The file to make; it must not exist")
        .required(true)
        .action(ArgAction::Set)
}

// An option of that name that may be absent, with any text. The help shows `value` in the text's place.
fn text_option<'a>(alloc: Global, name: &'a str, value: &'a str, help: &'a str) -> Arg<'a>
    ensures rule { rule_of result ≡ option_rule name.now }
    ensures local { result.global ≡ false }
{
    Arg::new(alloc, name)
        .long(name)
        .value_name(value)
        .help(help)
        .action(ArgAction::Set)
}

// One with a number. Each has its own range.
fn number_option<'a>(alloc: Global, name: &'a str, help: &'a str) -> Arg<'a>
    ensures rule { rule_of result ≡ option_rule name.now }
    ensures local { result.global ≡ false }
{
    text_option(alloc, name, "N", help)
}

fn mode_option<'a>(alloc: Global) -> Arg<'a>
    ensures rule { rule_of result ≡ mode_rule }
    ensures local { result.global ≡ false }
{
    text_option(
        alloc,
        "mode",
        "MODE",
        "Permission bits of the file in octal, up to 0777, of which the umask may take some away; 0600 if absent",
    )
}

fn identity_option<'a>(alloc: Global) -> Arg<'a>
    ensures rule { rule_of result ≡ identity_rule }
    ensures local { result.global ≡ false }
{
    text_option(
        alloc,
        "id",
        "HEX",
        "Identity of the store in format 3, 32 hexadecimal digits; random if absent. Format 2 has none",
    )
}

fn size_option<'a>(alloc: Global) -> Arg<'a>
    ensures rule { rule_of result ≡ size_rule }
    ensures local { result.global ≡ false }
{
    text_option(
        alloc,
        "size",
        "SIZE",
        "Size of the file, such as 512K, 16M or 2G, in powers of 1024, or in bytes, 80K to 2048G; 16M if absent",
    )
}

fn file_sectors<'a>(alloc: Global) -> Arg<'a>
    ensures rule { rule_of result ≡ sectors_up_to MAX_SECTORS }
    ensures local { result.global ≡ false }
{
    number_option(
        alloc,
        "sectors",
        "Number of 512-byte sectors, 3 to 4294967296",
    )
    .required(true)
    .value_parser(value_parser!(u64).range(MIN_SECTORS as i64..=MAX_SECTORS as i64))
}

fn memory_sectors<'a>(alloc: Global) -> Arg<'a>
    ensures rule { rule_of result ≡ sectors_up_to MAX_MEMORY_SECTORS }
    ensures local { result.global ≡ false }
{
    number_option(alloc, "sectors", "Number of 512-byte sectors, 3 to 1048576")
        .required(true)
        .value_parser(value_parser!(u64).range(MIN_SECTORS as i64..=MAX_MEMORY_SECTORS as i64))
}

fn batch_option<'a>(alloc: Global) -> Arg<'a>
    ensures rule { rule_of result ≡ batch_rule }
    ensures local { result.global ≡ false }
{
    number_option(
        alloc,
        "batch",
        "Commit up to N successive changes together, 1 to 1024; fewer get no reply until a line that is no change, or the end",
    )
    .value_parser(value_parser!(u64).range(1..=MAX_BATCH as i64))
}

fn pump_option<'a>(alloc: Global) -> Arg<'a>
    ensures rule { rule_of result ≡ pump_rule }
    ensures local { result.global ≡ false }
{
    number_option(
        alloc,
        "pump",
        "While a snapshot is due, copy up to N of its sectors after each change, 1 to 1000000",
    )
    .value_parser(value_parser!(u64).range(1..=MAX_PUMP as i64))
}

fn history_option<'a>(alloc: Global) -> Arg<'a>
    ensures rule { rule_of result ≡ history_rule }
    ensures local { result.global ≡ false }
{
    text_option(
        alloc,
        "history",
        "BYTES",
        "Keep the newest changes in memory, up to BYTES of them, for `changes` to tell, 0 to 4294967296; 16777216 if absent",
    )
    .value_parser(value_parser!(u64).range(0..=MAX_HISTORY as i64))
}

fn format_option<'a>(alloc: Global, help: &'a str) -> Arg<'a>
    ensures rule { rule_of result ≡ format_rule }
    ensures local { result.global ≡ false }
{
    number_option(alloc, "format", help).value_parser(value_parser!(u64).range(
        MIN_FORMAT as i64..=MAX_FORMAT as i64,
    ))
}

// An option of that name that takes no value.
fn flag<'a>(alloc: Global, name: &'a str, help: &'a str) -> Arg<'a>
    ensures rule { rule_of result ≡ flag_rule name.now }
    ensures local { result.global ≡ false }
{
    Arg::new(alloc, name)
        .long(name)
        .help(help)
        .action(ArgAction::SetTrue)
}

fn sparse_flag<'a>(alloc: Global) -> Arg<'a>
    ensures rule { rule_of result ≡ flag_rule (codes "sparse") }
    ensures local { result.global ≡ false }
{
    flag(
        alloc,
        "sparse",
        "Leave the file's blocks to be allocated as they are written; without it the whole file is written with zeros first",
    )
}

fn why_flag<'a>(alloc: Global) -> Arg<'a>
    ensures rule { rule_of result ≡ why_rule }
    ensures local { result.global ≡ false }
{
    flag(
        alloc,
        "why",
        "Where a file can't be made or opened (`jpstore: file`), say why on a second line of standard error, a JSON object",
    )
}

fn strict_flag<'a>(alloc: Global) -> Arg<'a>
    ensures rule { rule_of result ≡ strict_rule }
    ensures local { result.global ≡ false }
{
    flag(
        alloc,
        "strict",
        "Refuse a store in format 3 whose last commit may be lost, as cut-off (75), and leave its file as it is",
    )
}

fn deep_flag<'a>(alloc: Global) -> Arg<'a>
    ensures rule { rule_of result ≡ flag_rule (codes "deep") }
    ensures local { result.global ≡ false }
{
    flag(
        alloc,
        "deep",
        "Only read the file, all of it, and write a line for each thing that is damaged, also if nothing is lost",
    )
}

fn frames_flag<'a>(alloc: Global) -> Arg<'a>
    ensures rule { rule_of result ≡ flag_rule (codes "frames") }
    ensures local { result.global ≡ false }
{
    flag(
        alloc,
        "frames",
        "Write each change that can be read, with its place, old ones of both halves too, and not the documents",
    )
}

fn read_only_flag<'a>(alloc: Global) -> Arg<'a>
    ensures rule { rule_of result ≡ flag_rule (codes "read-only") }
    ensures local { result.global ≡ false }
{
    flag(
        alloc,
        "read-only",
        "Only read the file, which this user need not be allowed to write; no opening is counted. It must be given",
    )
}

fn new_command<'a>(alloc: Global) -> Result<Command<'a>, Error>
    ensures shape { IfOk result (λ c. shape_of c ≡ fresh_shape) }
    ensures local { IfOk result (λ c. (fields_of c).has_globals ≡ false) }
    ensures memory { IfErr result (λ e. kind_of e ≡ OutOfMemory) }
{
    let new = Command::new(alloc, "new")
        .about(
            "Make a file with an empty store of format 3 in it, which its owner alone may read and write",
        )
        .arg(file_argument(alloc, "The file to make; it must not exist"))?
        .arg(size_option(alloc))?
        .arg(identity_option(alloc))?
        .arg(why_flag(alloc))?;
    Ok(new)
}

fn format_command<'a>(alloc: Global) -> Result<Command<'a>, Error>
    ensures shape { IfOk result (λ c. shape_of c ≡ format_shape) }
    ensures local { IfOk result (λ c. (fields_of c).has_globals ≡ false) }
    ensures memory { IfErr result (λ e. kind_of e ≡ OutOfMemory) }
{
    let format = Command::new(alloc, "format")
        .about(
            "Make a file with an empty store of format 2 in it, or of the format that `--format` says; `new` makes one of format 3",
        )
        .arg(file_argument(alloc, "The file to make; it must not exist"))?
        .arg(file_sectors(alloc))?
        .arg(format_option(
            alloc,
            "Format of the file, 2 or 3; 2 if absent. Format 3 takes 160 sectors at least, bears torn blocks of the disk, and waits for one sync at most changes, format 2 for two",
        ))?
        .arg(mode_option(alloc))?
        .arg(identity_option(alloc))?
        .arg(sparse_flag(alloc))?
        .arg(why_flag(alloc))?;
    Ok(format)
}

fn serve_command<'a>(alloc: Global) -> Result<Command<'a>, Error>
    ensures shape { IfOk result (λ c. shape_of c ≡ serve_shape) }
    ensures local { IfOk result (λ c. (fields_of c).has_globals ≡ false) }
    ensures memory { IfErr result (λ e. kind_of e ≡ OutOfMemory) }
{
    let serve = Command::new(alloc, "serve")
        .about("Answer command lines over the store in a file")
        .arg(file_argument(alloc, "The file of the store"))?
        .arg(batch_option(alloc))?
        .arg(pump_option(alloc))?
        .arg(history_option(alloc))?
        .arg(strict_flag(alloc))?
        .arg(why_flag(alloc))?;
    Ok(serve)
}

fn check_command<'a>(alloc: Global) -> Result<Command<'a>, Error>
    ensures shape { IfOk result (λ c. shape_of c ≡ check_shape) }
    ensures local { IfOk result (λ c. (fields_of c).has_globals ≡ false) }
    ensures memory { IfErr result (λ e. kind_of e ≡ OutOfMemory) }
{
    let check = Command::new(alloc, "check")
        .about(
            "Open the store in a file as `serve` does, and show its status, which counts as an opening; or, by `--deep`, read all of it, and tell what is damaged",
        )
        .arg(file_argument(
            alloc,
            "The file of the store; no other program may have it open",
        ))?
        .arg(strict_flag(alloc))?
        .arg(deep_flag(alloc))?
        .arg(why_flag(alloc))?;
    Ok(check)
}

fn repair_command<'a>(alloc: Global) -> Result<Command<'a>, Error>
    ensures shape { IfOk result (λ c. shape_of c ≡ repair_shape) }
    ensures local { IfOk result (λ c. (fields_of c).has_globals ≡ false) }
    ensures memory { IfErr result (λ e. kind_of e ≡ OutOfMemory) }
{
    let repair = Command::new(alloc, "repair")
        .about(
            "Open the store in a file, by which its commit slots are written anew, and show its status and what they said; this counts as an opening",
        )
        .arg(file_argument(
            alloc,
            "The file of the store; no other program may have it open",
        ))?
        .arg(why_flag(alloc))?;
    Ok(repair)
}

fn copy_command<'a>(alloc: Global) -> Result<Command<'a>, Error>
    ensures shape { IfOk result (λ c. shape_of c ≡ copy_shape) }
    ensures local { IfOk result (λ c. (fields_of c).has_globals ≡ false) }
    ensures memory { IfErr result (λ e. kind_of e ≡ OutOfMemory) }
{
    let copy = Command::new(alloc, "copy")
        .about(
            "Copy the store in a file into a new file of another size; this counts as an opening",
        )
        .arg(file_argument(
            alloc,
            "The file of the store; no other program may have it open",
        ))?
        .arg(new_argument(alloc))?
        .arg(file_sectors(alloc))?
        .arg(format_option(
            alloc,
            "Format of the new file, 2 or 3; that of FILE if absent. Format 3 takes 160 sectors at least",
        ))?
        .arg(identity_option(alloc))?
        .arg(strict_flag(alloc))?
        .arg(why_flag(alloc))?;
    Ok(copy)
}

fn upgrade_command<'a>(alloc: Global) -> Result<Command<'a>, Error>
    ensures shape { IfOk result (λ c. shape_of c ≡ upgrade_shape) }
    ensures local { IfOk result (λ c. (fields_of c).has_globals ≡ false) }
    ensures memory { IfErr result (λ e. kind_of e ≡ OutOfMemory) }
{
    let upgrade = Command::new(alloc, "upgrade")
        .about("Bring the store in a file to format 3, or back to 2; this counts as an opening")
        .arg(file_argument(
            alloc,
            "The file of the store; no other program may have it open",
        ))?
        .arg(format_option(
            alloc,
            "Format to bring it to, 2 or 3; 3 if absent. It takes 255 sectors at least, since both are in the file meanwhile",
        ))?
        .arg(identity_option(alloc))?
        .arg(strict_flag(alloc))?
        .arg(why_flag(alloc))?;
    Ok(upgrade)
}

fn mem_command<'a>(alloc: Global) -> Result<Command<'a>, Error>
    ensures shape { IfOk result (λ c. shape_of c ≡ mem_shape) }
    ensures local { IfOk result (λ c. (fields_of c).has_globals ≡ false) }
    ensures memory { IfErr result (λ e. kind_of e ≡ OutOfMemory) }
{
    let mem = Command::new(alloc, "mem")
        .about("Answer command lines over a new store in memory")
        .arg(memory_sectors(alloc))?
        .arg(format_option(
            alloc,
            "Format of the store, 2 or 3; 2 if absent. Format 3 takes 160 sectors at least",
        ))?
        .arg(history_option(alloc))?;
    Ok(mem)
}

fn salvage_command<'a>(alloc: Global) -> Result<Command<'a>, Error>
    ensures shape { IfOk result (λ c. shape_of c ≡ salvage_shape) }
    ensures local { IfOk result (λ c. (fields_of c).has_globals ≡ false) }
    ensures memory { IfErr result (λ e. kind_of e ≡ OutOfMemory) }
{
    let salvage = Command::new(alloc, "salvage")
        .about(
            "Write what can still be read of a damaged store, as lines that make its documents; the file is only read",
        )
        .arg(file_argument(alloc, "The file of the store"))?
        .arg(frames_flag(alloc))?
        .arg(why_flag(alloc))?;
    Ok(salvage)
}

fn dump_command<'a>(alloc: Global) -> Result<Command<'a>, Error>
    ensures shape { IfOk result (λ c. shape_of c ≡ dump_shape) }
    ensures local { IfOk result (λ c. (fields_of c).has_globals ≡ false) }
    ensures memory { IfErr result (λ e. kind_of e ≡ OutOfMemory) }
{
    let dump = Command::new(alloc, "dump")
        .about("Write each document of the store in a file as the line that makes it")
        .arg(file_argument(alloc, "The file of the store"))?
        .arg(read_only_flag(alloc))?
        .arg(strict_flag(alloc))?
        .arg(why_flag(alloc))?;
    Ok(dump)
}

/// The program's commands.
pub(crate) fn program<'a>(alloc: Global) -> Result<Command<'a>, Error>
    ensures ok { IfOk result (λ c. app_of c ≡ app) }
    ensures memory { IfErr result (λ e. kind_of e ≡ OutOfMemory) }
{
    let program = Command::new(alloc, "jpstore")
        .bin_name("jpstore")?
        .about("A crash-safe store of named JSON documents")
        .version(VERSION)
        .no_binary_name(true)
        .subcommand_required(true)
        .subcommand(new_command(alloc)?)?
        .subcommand(format_command(alloc)?)?
        .subcommand(serve_command(alloc)?)?
        .subcommand(check_command(alloc)?)?
        .subcommand(repair_command(alloc)?)?
        .subcommand(copy_command(alloc)?)?
        .subcommand(upgrade_command(alloc)?)?
        .subcommand(mem_command(alloc)?)?
        .subcommand(salvage_command(alloc)?)?
        .subcommand(dump_command(alloc)?)?;
    Ok(program)
}
