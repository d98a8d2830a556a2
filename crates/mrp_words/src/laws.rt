//! Examples of what the definition of the words says. Each law is the contract of a function that
//! does nothing.

ghost use Rattle.std.specs.Prelude.{◌≡◌, [], ◌∷◌, Some, None, codes, false, true};
ghost use Rattle.clap.specs.declared.error.kind.ErrorKind.TheVariants as kind;
ghost use Rattle.mrp_words.specs.declared.day.DayCommand.TheVariants.{Plan, Live};
ghost use Rattle.mrp_words.specs.Words.{AskFor, AskForCarry, AskForCheck, AskForDesk, AskForInspection, AskForPage, folder_in, refusals};

/// Words that are accepted, and why others are refused.
pub fn words()
    // These are accepted.
    ensures plan { refusals (codes "plan" ∷ []) ≡ [] }
    ensures live { refusals (codes "live" ∷ []) ≡ [] }
    ensures workers { refusals (codes "plan" ∷ codes "--workers" ∷ codes "64" ∷ []) ≡ [] }
    ensures joined { refusals (codes "plan" ∷ codes "--workers=1" ∷ []) ≡ [] }
    ensures folder { refusals (codes "plan" ∷ codes "--dir" ∷ codes "shop" ∷ []) ≡ [] }
    ensures page { refusals (codes "page" ∷ []) ≡ [] }
    ensures page_of_items { refusals (codes "page" ∷ codes "--run" ∷ codes "2" ∷ codes "--items=A,B" ∷ codes "--title" ∷ codes "Shop" ∷ []) ≡ [] }
    ensures page_of_folder { refusals (codes "page" ∷ codes "--dir=shop" ∷ []) ≡ [] }
    ensures live_folder { refusals (codes "live" ∷ codes "--workers=8" ∷ codes "--dir" ∷ codes "shop" ∷ []) ≡ [] }
    ensures check { refusals (codes "check" ∷ codes "--dir" ∷ codes "shop" ∷ []) ≡ [] }
    ensures carry { refusals (codes "carry" ∷ codes "--dir" ∷ codes "shop" ∷ codes "--start" ∷ codes "2025-01-20" ∷ []) ≡ [] }
    ensures carried_numbers { refusals (codes "carry" ∷ codes "--numbers" ∷ codes "--start=2025-01-20" ∷ codes "--dir=shop" ∷ []) ≡ [] }
    ensures inspect { refusals (codes "inspect" ∷ codes "--dir" ∷ codes "shop" ∷ []) ≡ [] }
    ensures desk { refusals (codes "desk" ∷ codes "--dir" ∷ codes "shop" ∷ codes "--workers=4" ∷ []) ≡ [] }
    // They name a folder, or none.
    ensures named { folder_in (codes "plan" ∷ codes "--dir" ∷ codes "shop" ∷ []) ≡ Some (codes "shop") }
    ensures behind { folder_in (codes "plan" ∷ codes "--workers=2" ∷ codes "--dir=shop" ∷ []) ≡ Some (codes "shop") }
    ensures of_live { folder_in (codes "live" ∷ codes "--dir" ∷ codes "shop" ∷ []) ≡ Some (codes "shop") }
    ensures input { folder_in (codes "plan" ∷ codes "--workers=2" ∷ []) ≡ None }
    // They ask for these commands, with this many workers.
    ensures one_worker { AskFor (codes "plan" ∷ []) Plan 1 }
    ensures all_workers { AskFor (codes "plan" ∷ codes "--workers" ∷ codes "64" ∷ []) Plan 64 }
    ensures two_workers { AskFor (codes "plan" ∷ codes "--workers=2" ∷ []) Plan 2 }
    ensures live_day { AskFor (codes "live" ∷ []) Live 1 }
    ensures live_workers { AskFor (codes "live" ∷ codes "--workers" ∷ codes "8" ∷ []) Live 8 }
    // They ask for the page of this run, with these items, this title and the tables of this folder.
    ensures last_page { AskForPage (codes "page" ∷ []) None None None None }
    ensures dated_page { AskForPage (codes "page" ∷ codes "--dir=shop" ∷ []) None None None (Some (codes "shop")) }
    ensures asked_page { AskForPage (codes "page" ∷ codes "--run" ∷ codes "2" ∷ codes "--items=A,B" ∷ codes "--title" ∷ codes "Shop" ∷ []) (Some 2) (Some (codes "A,B")) (Some (codes "Shop")) None }
    // They ask for a check against the files of this folder.
    ensures checked { AskForCheck (codes "check" ∷ codes "--dir=shop" ∷ []) (codes "shop") }
    // They ask for the bookings of this folder to be carried from this day on, as a script or as a list of numbers.
    ensures carried { AskForCarry (codes "carry" ∷ codes "--dir=shop" ∷ codes "--start=2025-01-20" ∷ []) (codes "shop") (codes "2025-01-20") false }
    ensures listed { AskForCarry (codes "carry" ∷ codes "--dir=shop" ∷ codes "--start=2025-01-20" ∷ codes "--numbers" ∷ []) (codes "shop") (codes "2025-01-20") true }
    // They ask for the tables of this folder to be inspected.
    ensures inspected { AskForInspection (codes "inspect" ∷ codes "--dir=shop" ∷ []) (codes "shop") }
    // They ask for an order desk of this folder, with this many workers.
    ensures open_desk { AskForDesk (codes "desk" ∷ codes "--dir=shop" ∷ []) (codes "shop") 1 }
    ensures desk_workers { AskForDesk (codes "desk" ∷ codes "--dir=shop" ∷ codes "--workers" ∷ codes "8" ∷ []) (codes "shop") 8 }
    // These ask for help.
    ensures help { refusals (codes "--help" ∷ []) ≡ kind.DisplayHelp ∷ [] }
    ensures short { refusals (codes "-h" ∷ []) ≡ kind.DisplayHelp ∷ [] }
    ensures help_of_plan { refusals (codes "plan" ∷ codes "--help" ∷ []) ≡ kind.DisplayHelp ∷ [] }
    ensures help_of_live { refusals (codes "live" ∷ codes "--help" ∷ []) ≡ kind.DisplayHelp ∷ [] }
    ensures help_of_page { refusals (codes "page" ∷ codes "--help" ∷ []) ≡ kind.DisplayHelp ∷ [] }
    ensures help_of_check { refusals (codes "check" ∷ codes "--help" ∷ []) ≡ kind.DisplayHelp ∷ [] }
    ensures help_of_carry { refusals (codes "carry" ∷ codes "--help" ∷ []) ≡ kind.DisplayHelp ∷ [] }
    ensures help_of_inspect { refusals (codes "inspect" ∷ codes "--help" ∷ []) ≡ kind.DisplayHelp ∷ [] }
    ensures help_of_desk { refusals (codes "desk" ∷ codes "--help" ∷ []) ≡ kind.DisplayHelp ∷ [] }
    // These ask for the version.
    ensures version { refusals (codes "--version" ∷ []) ≡ kind.DisplayVersion ∷ [] }
    ensures short_version { refusals (codes "-V" ∷ []) ≡ kind.DisplayVersion ∷ [] }
    // These are wrong.
    ensures none { refusals [] ≡ kind.MissingSubcommand ∷ [] }
    ensures unknown { refusals (codes "explode" ∷ []) ≡ kind.UnknownArgument ∷ kind.InvalidSubcommand ∷ [] }
    ensures both { refusals (codes "plan" ∷ codes "live" ∷ []) ≡ kind.UnknownArgument ∷ [] }
    ensures version_of_plan { refusals (codes "plan" ∷ codes "--version" ∷ []) ≡ kind.UnknownArgument ∷ [] }
    ensures no_worker { refusals (codes "plan" ∷ codes "--workers=0" ∷ []) ≡ kind.ValueValidation ∷ [] }
    ensures too_many { refusals (codes "plan" ∷ codes "--workers=65" ∷ []) ≡ kind.ValueValidation ∷ [] }
    ensures no_live_worker { refusals (codes "live" ∷ codes "--workers=0" ∷ []) ≡ kind.ValueValidation ∷ [] }
    ensures two_folders { refusals (codes "plan" ∷ codes "--dir=a" ∷ codes "--dir=b" ∷ []) ≡ kind.ArgumentConflict ∷ [] }
    ensures no_run { refusals (codes "page" ∷ codes "--run=0" ∷ []) ≡ kind.ValueValidation ∷ [] }
    ensures no_folder { refusals (codes "check" ∷ []) ≡ kind.MissingRequiredArgument ∷ [] }
    ensures check_by_workers { refusals (codes "check" ∷ codes "--dir=shop" ∷ codes "--workers=2" ∷ []) ≡ kind.UnknownArgument ∷ [] }
    ensures no_inspected_folder { refusals (codes "inspect" ∷ []) ≡ kind.MissingRequiredArgument ∷ [] }
    ensures inspected_by_word { refusals (codes "inspect" ∷ codes "shop" ∷ []) ≡ kind.UnknownArgument ∷ [] }
    ensures no_desk_folder { refusals (codes "desk" ∷ []) ≡ kind.MissingRequiredArgument ∷ [] }
    ensures no_desk_worker { refusals (codes "desk" ∷ codes "--dir=shop" ∷ codes "--workers=0" ∷ []) ≡ kind.ValueValidation ∷ [] }
    ensures no_start { refusals (codes "carry" ∷ codes "--dir=shop" ∷ []) ≡ kind.MissingRequiredArgument ∷ [] }
    ensures no_carried_folder { refusals (codes "carry" ∷ codes "--start=2025-01-20" ∷ []) ≡ kind.MissingRequiredArgument ∷ [] }
    ensures two_starts { refusals (codes "carry" ∷ codes "--dir=shop" ∷ codes "--start=2025-01-20" ∷ codes "--start=2025-01-20" ∷ []) ≡ kind.ArgumentConflict ∷ [] }
    ensures two_flags { refusals (codes "carry" ∷ codes "--dir=shop" ∷ codes "--start=2025-01-20" ∷ codes "--numbers" ∷ codes "--numbers" ∷ []) ≡ kind.ArgumentConflict ∷ [] }
    ensures no_number { refusals (codes "plan" ∷ codes "--workers=many" ∷ []) ≡ kind.ValueValidation ∷ [] }
{}
