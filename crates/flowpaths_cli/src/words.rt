//! The words of the command line.
ghost use Rattle.std.specs.Prelude.{◌≡◌, ◌⊎◌, Some, IsNone, IfOk};
ghost use Rattle.flowpaths_cli.specs.Right.{AreBuilt};
ghost use Rattle.flowpaths_cli.specs.Values.{values_in, settings_by};
ghost use Rattle.flowpaths_cli.specs.Words.{texts, settings_of};

use crate::given::Given;
use crate::settings::Settings;
use clap::error::ErrorKind;
use flow_io::Word;
use std::alloc::{AllocError, Global};
use thiserror::Error;

/// Why words give no settings.
#[derive(Debug, Drop, Error)]
pub enum WordFault {
    #[error("the words are not understood")]
    Words,
    #[error("out of memory")]
    Memory,
}

impl From<AllocError> for WordFault {
    ghost use Rattle.std.specs.Prelude.{◌≡◌};
    ghost use Rattle.flowpaths_cli.specs.declared.words.WordFault.TheVariants.{Memory};

    ghost from_gives = { λ _ fault. fault ≡ Memory };

    fn from(_error: AllocError) -> Self {
        WordFault::Memory
    }
}

impl From<clap::Error> for WordFault {
    ghost use Rattle.std.specs.Prelude.{◌≡◌};
    ghost use Rattle.clap.specs.Words.{kind_of};
    ghost use Rattle.flowpaths_cli.specs.Faults.{fault_by};

    ghost from_gives = { λ error fault. fault ≡ fault_by (kind_of error) };

    fn from(error: clap::Error) -> Self {
        match error.kind() {
            ErrorKind::OutOfMemory => WordFault::Memory,
            _ => WordFault::Words,
        }
    }
}

impl Settings {
    /// The settings that the words give.
    #[tactic(auto, unfolding(crate::specs::Words::settings_of))]
    pub fn of_words(alloc: Global, words: &[String]) -> Result<Settings, WordFault>
        ensures ok { IfOk result (λ settings. settings_of (texts words.now) ≡ Some settings) }

        // Refused words are the cause of `Words`; where memory is wanting to read them, `Memory` comes in its place.
        ensures words { result ≡ Err WordFault.Words → IsNone (settings_of (texts words.now)) }
        ensures refused { IsNone (settings_of (texts words.now)) → (result ≡ Err WordFault.Words) ⊎ (result ≡ Err WordFault.Memory) }
        ensures built { IfOk result AreBuilt }
    {
        let given = Given::by(alloc, words)?;
        if given.is_refused() {
            return Err(WordFault::Words);
        }
        let settings = settings_by(alloc, given)?;
        Ok(settings)
    }
}

/// The settings by what is given.
fn settings_by(alloc: Global, given: Given<'_>) -> Result<Settings, AllocError>
    ensures { IfOk result (λ settings. settings ≡ settings_by (values_in given.entry)) }
{
    let file = Word::from_string(String::from_str(alloc, given.name())?);
    Ok(Settings {
        mode: given.mode(),
        nodes: given.nodes(),
        safe: given.safe,
        demo: given.seed(),
        file,
    })
}
