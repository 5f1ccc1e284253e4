// The arguments of the calls, judged after the files: a choice (15), a train (16) and a stop minute (17).
#![tactic(auto)]

ghost use Rattle.std.specs.Prelude.{◌≡◌};
ghost use Rattle.file_lookup.specs.Answers.{files_of};
ghost use Rattle.file_lookup.specs.Told.{told};
ghost use Rattle.file_arguments.specs.Arguments.{past_table, choice_wrong, nowhere, for_single, for_train, for_stop};

use file_fields::refusals::{Fault, Refusal};
use file_lookup::Sizes;

// Whether the choice's index for train k is past its table.
fn past_table(case: &[u8], book: &[u8], choice: &[u8], k: usize) -> bool
    ensures { result ≡ past_table case.now book.now choice.now k }
{
    let table = file_lookup::train_table(case, book, k);
    file_lookup::pairs(table) <= file_fields::byte(choice, k)
}

// Whether a choice has not one index for each train, or one past its train's table.
fn wrong_choice(case: &[u8], book: &[u8], trains: usize, choice: &[u8]) -> bool
    ensures { result ≡ choice_wrong case.now book.now trains choice.now }
{
    choice.len() != trains || (0..trains).any(|k| past_table(case, book, choice, k))
}

// A refusal that points nowhere.
// Its file and place are 0 and not an Option: `nowhere` of the rules, by which `case_for` judges arguments, has both 0, and C reads them so.
fn nowhere(fault: Fault) -> Refusal
    ensures { result ≡ nowhere fault }
{
    Refusal {
        fault,
        file: 0,
        place: 0,
    }
}

// The files and the arguments of a single run: a choice and a train.
pub fn for_single(case: &[u8], book: &[u8], choice: &[u8], train: usize) -> Result<Sizes, Refusal>
    ensures { told result ≡ files_of (for_single case.now book.now choice.now train) }
{
    let sizes = file_lookup::read_files(case, book)?;
    if wrong_choice(case, book, sizes.trains, choice) {
        return Err(nowhere(Fault::WrongChoice));
    }
    if sizes.trains <= train {
        return Err(nowhere(Fault::NoTrain));
    }
    Ok(sizes)
}

// The files and the argument of the figures: a train.
pub fn for_train(case: &[u8], book: &[u8], train: usize) -> Result<Sizes, Refusal>
    ensures { told result ≡ files_of (for_train case.now book.now train) }
{
    let sizes = file_lookup::read_files(case, book)?;
    if sizes.trains <= train {
        return Err(nowhere(Fault::NoTrain));
    }
    Ok(sizes)
}

// The files and the argument of a run: a stop minute.
pub fn for_stop(case: &[u8], book: &[u8], minute: usize) -> Result<Sizes, Refusal>
    ensures { told result ≡ files_of (for_stop case.now book.now minute) }
{
    let sizes = file_lookup::read_files(case, book)?;
    if file_fields::word(case, 3) < minute {
        return Err(nowhere(Fault::StopTooLate));
    }
    Ok(sizes)
}
