//! The rules of usage.
ghost use Rattle.std.specs.Prelude.{◌≡◌, option_map};
ghost use Rattle.std.specs.Option.{option_copied};
ghost use Rattle.dom0less_words.specs.Usage.{asked_of, load_kind_of, generated_of, has_no_script_options, stands_alone, built_or_checked, of_config, of_mode, OfReplay, OfReady, OfShow, OfGenerate};
ghost use Rattle.dom0less_words.specs.Meant.{meant, meant_source};
ghost use Rattle.dom0less_words.specs.PrivateKeptOptions.{meant_options};

use crate::asked::{Asked, ScriptAsked, Source};
use ib_script::LoadKind;
use texts::read_number;

/// The value of each option, and whether each flag was given.
#[derive(Clone, Copy)]
pub(crate) struct Options<'a> {
    pub(crate) config: Option<&'a str>,
    pub(crate) script: Option<&'a str>,
    pub(crate) tree: Option<&'a str>,
    pub(crate) files: Option<&'a str>,
    pub(crate) outputs: Option<&'a str>,
    pub(crate) kind: Option<&'a str>,
    pub(crate) script_only: bool,
    pub(crate) check: bool,
    pub(crate) show: Option<&'a str>,
    pub(crate) generate: Option<&'a str>,
}

/// The greatest number that a tree is generated for.
const GENERATED_LIMIT: u64 = 1_000_000;

/// What the options ask for.
pub(crate) fn asked<'a>(options: &Options<'a>) -> Option<Asked<'a>>
    ensures { option_map meant result ≡ asked_of (meant_options options.now) }
{
    match (
        options.config,
        options.script,
        options.tree,
        options.show,
        options.generate,
    ) {
        (Some(config), None, None, None, None) => {
            let kind = read_load_kind(options.kind)?;
            of_config(options, config, kind)
        }
        (None, Some(script), Some(tree), None, None) => of_replay(options, script, tree),
        (None, None, Some(tree), None, None) => of_ready(options, tree),
        (None, None, None, Some(tree), None) => of_show(options, tree),
        (None, None, None, None, Some(word)) => of_generate(options, word),
        _ => None,
    }
}

/// Neither `-t` nor `--script-only` is given.
fn has_no_script_options(options: &Options<'_>) -> bool
    ensures { result ≡ has_no_script_options (meant_options options.now) }
{
    options.kind.is_none() && !options.script_only
}

/// No option but the mode's own is given.
fn stands_alone(options: &Options<'_>) -> bool
    ensures { result ≡ stands_alone (meant_options options.now) }
{
    options.files.is_none()
        && options.outputs.is_none()
        && !options.check
        && has_no_script_options(options)
}

/// The audit of a build's images, or the build.
fn built_or_checked<'a>(check: bool, source: Source<'a>, folder: Option<&'a str>) -> Asked<'a>
    ensures { meant result ≡ built_or_checked check (meant_source source.entry) (option_copied folder.entry) }
{
    if check {
        Asked::Check(source, folder)
    } else {
        Asked::Build(source, folder)
    }
}

/// What a configuration is read for.
fn of_config<'a>(options: &Options<'a>, config: &'a str, kind: LoadKind) -> Option<Asked<'a>>
    ensures { option_map meant result ≡ of_config (meant_options options.now) config.entry.now kind }
{
    if options.script_only {
        let script = ScriptAsked {
            config,
            files: options.files,
            outputs: options.outputs,
            kind,
        };
        (!options.check).then_some(Asked::Script(script))
    } else {
        let source = Source::Config(config, options.files, kind);
        Some(built_or_checked(options.check, source, options.outputs))
    }
}

/// What a script and a tree are read for.
fn of_replay<'a>(options: &Options<'a>, script: &'a str, tree: &'a str) -> Option<Asked<'a>>
    ensures { option_map meant result ≡ of_mode (meant_options options.now) (OfReplay script.entry.now tree.entry.now) }
{
    let source = Source::Replay(script, tree, options.files);
    let asked = built_or_checked(options.check, source, options.outputs);
    has_no_script_options(options).then_some(asked)
}

/// What a ready tree is read for.
fn of_ready<'a>(options: &Options<'a>, tree: &'a str) -> Option<Asked<'a>>
    ensures { option_map meant result ≡ of_mode (meant_options options.now) (OfReady tree.entry.now) }
{
    let may_stand = options.files.is_none() && has_no_script_options(options);
    let asked = built_or_checked(options.check, Source::Ready(tree), options.outputs);
    may_stand.then_some(asked)
}

/// The listing of a tree.
fn of_show<'a>(options: &Options<'a>, tree: &'a str) -> Option<Asked<'a>>
    ensures { option_map meant result ≡ of_mode (meant_options options.now) (OfShow tree.entry.now) }
{
    stands_alone(options).then_some(Asked::Show(tree))
}

/// The build of a generated tree.
fn of_generate<'a>(options: &Options<'a>, word: &str) -> Option<Asked<'a>>
    ensures { option_map meant result ≡ of_mode (meant_options options.now) (OfGenerate word.now) }
{
    let number = read_generated(word)?;
    stands_alone(options).then_some(Asked::Generate(number))
}

/// A number up to the limit.
fn read_generated(word: &str) -> Option<u64>
    ensures { result ≡ generated_of word.now }
{
    match read_number(word) {
        Ok(number) if number <= GENERATED_LIMIT => Some(number),
        _ => None,
    }
}

/// Where files are loaded from.
fn read_load_kind(word: Option<&str>) -> Option<LoadKind>
    ensures { result ≡ load_kind_of (option_copied word.entry) }
{
    match word {
        None => Some(LoadKind::Tftp),
        Some("tftp") => Some(LoadKind::Tftp),
        Some("sd") => Some(LoadKind::Sd),
        Some("scsi") => Some(LoadKind::Scsi),
        Some("usb") => Some(LoadKind::Usb),
        Some(_) => None,
    }
}
