// The warnings of a configuration, and the verdict on them.
ghost use Rattle.std.specs.Prelude.{◌≡◌, IfOk, string_bytes};
ghost use Rattle.ib_config_lint.specs.Warnings.{warnings};
ghost use Rattle.program.specs.Made.{outcome_of, IsPromised};
ghost use Rattle.ib_lint.specs.Verdicts.{lines, is_clean as clean, IsJudging};
ghost use Rattle.ib_lint.specs.Promises.{IsCleanReport};

use ib_config::Config;
use ib_config_lint::{Warning, lint};
use program::{Made, Verdict};
use run_steps::Build;
use std::alloc::{AllocError, Global};
use texts::{Bytes, List};

/// The lines of warnings.
fn make_lines(alloc: Global, found: &[Warning]) -> Result<String, AllocError>
    ensures { IfOk result (λ text. string_bytes text ≡ lines found.now) }
{
    let mut out = String::new(alloc);
    for warning in found {
        warning.put_line(&mut out)?;
    }
    Ok(out)
}

/// Whether there is no warning, or remarks alone.
fn is_clean(found: &[Warning]) -> bool
    ensures { result ≡ clean found.now }
{
    found.iter().all(|warning| warning.is_remark())
}

/// The warnings of a configuration: a report where there is none, or remarks alone, and else a list of what is to be mended.
pub(crate) fn judge(alloc: Global, config: &Config) -> Result<Made, AllocError>
    ensures made { IfOk result (λ made. IsJudging config.now (outcome_of made)) }
    ensures clean { IfOk result (IsPromised (IsCleanReport config.now)) }
{
    let found = lint(alloc, config)?;
    let text = make_lines(alloc, found.as_slice())?;
    let lines = Bytes::from(text.into_bytes());
    if is_clean(found.as_slice()) {
        return Ok(Made::Built(Build {
            outputs: List::new(alloc),
            report: Some(lines),
        }));
    }
    Ok(Made::Found(Verdict::Differs, lines))
}
