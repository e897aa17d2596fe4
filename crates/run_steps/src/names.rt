// Names of files in folders.
ghost use Rattle.std.specs.Prelude.{◌≡◌, IfOk};
ghost use Rattle.std.specs.Option.{option_copied};
ghost use Rattle.run_steps.specs.Names.{joined};

use std::alloc::{AllocError, Global};
use texts::Text;

/// A name in a folder, where one is given: `FOLDER/NAME`.
pub fn join(alloc: Global, folder: Option<&str>, name: &str) -> Result<Text, AllocError>
    ensures { IfOk result (λ text. text ≡ joined (option_copied folder.entry) name.now) }
{
    let mut text = Text::new(alloc);
    match folder {
        Some(folder) => {
            text.append(folder)?;
            text.append("/")?;
        }
        None => {}
    }
    text.append(name)?;
    Ok(text)
}
