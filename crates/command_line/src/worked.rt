//! Command lines of which it is known what they ask for, against which the definition of the
//! program's command line was tried.

ghost use Rattle.command_line.specs.WorkedWords.{TakesScript, WantsSubcommand, TellsHelpOnHelp};
ghost use Rattle.command_line.specs.WorkedWords.{TellsHelpOnWord, TellsVersionOnVersion};
ghost use Rattle.command_line.specs.WorkedWords.{RefusesAnotherWord};
ghost use Rattle.command_line.specs.WorkedWords.{TakesFile, TakesStandardInput, TakesDash};
ghost use Rattle.command_line.specs.WorkedWords.{TakesUrls, TakesCrawl, RefusesTwice};
ghost use Rattle.command_line.specs.WorkedWords.{TakesNumbers, WantsNumber, RefusesNumberTwice};
ghost use Rattle.command_line.specs.WorkedWords.{TakesMeasured};
ghost use Rattle.command_line.specs.WorkedWords.{TakesTrace, RefusesFlagTwice};
ghost use Rattle.command_line.specs.WorkedWords.{TakesTraceFlag, TakesPicture};
ghost use Rattle.command_line.specs.LoadPlans.{SixAndTrace};
ghost use Rattle.command_line.specs.Numbers.{ReadsDurations, RefusesDurations};
ghost use Rattle.command_line.specs.Numbers.{ReadsPercentages, RefusesPercentages};
ghost use Rattle.command_line.specs.Resolving.{ReadsResolves, RefusesResolves};

/// What is wrong with small command lines, by computation: with `script` alone, or a file after it,
/// nothing; no word at all, and a word after the file, are refused; `--help`, `help` and
/// `--version` are asked for. Of `script` alone and `script -` the script is read from standard
/// input. `get` takes its options among the URLs, a file in place of URLs, `--resolve` any number
/// of times, and refuses another option that is given twice. `load` takes its numbers as they are
/// given, needs one after an option, and refuses an option given twice.
#[tactic(auto, unfolding(clap::proofs::OnLiterals::clap_on_literals))]
pub fn worked_command_lines()
    ensures script { TakesScript }
    ensures nothing { WantsSubcommand }
    ensures help { TellsHelpOnHelp }
    ensures help_word { TellsHelpOnWord }
    ensures version { TellsVersionOnVersion }
    ensures another_word { RefusesAnotherWord }
    ensures file { TakesFile }
    ensures standard_input { TakesStandardInput }
    ensures dash { TakesDash }
    ensures urls { TakesUrls }
    ensures crawl { TakesCrawl }
    ensures twice { RefusesTwice }
    ensures numbers { TakesNumbers }
    ensures no_number { WantsNumber }
    ensures number_twice { RefusesNumberTwice }
    ensures measured { TakesMeasured }
{}

/// The words of `audit`, by computation: it takes its flags before and after the file, and refuses
/// a flag that is given twice. `script` takes its flag behind the file, and the
/// file of a picture before it.
#[tactic(auto, unfolding(clap::proofs::OnLiterals::clap_on_literals))]
pub fn worked_audit_lines()
    ensures trace { TakesTrace }
    ensures twice { RefusesFlagTwice }
    ensures script { TakesTraceFlag }
    ensures picture { TakesPicture }
{}

/// Percentages, by computation: `0.5` is 50 hundredths, and `100.01` is refused, as is a
/// third decimal, or a dot without digits on both sides.
#[tactic(auto, unfolding(streams::specs::Words::number))]
pub fn worked_percentages()
    ensures read { ReadsPercentages }
    ensures refused { RefusesPercentages }
{}

/// Durations, by computation: `5m` is 300 seconds, `1h` 3,600. Another unit, two units, or
/// a unit without digits are refused, and more seconds than fit in 64 bits.
#[tactic(auto, unfolding(streams::specs::Words::number))]
pub fn worked_durations()
    ensures read { ReadsDurations }
    ensures refused { RefusesDurations }
{}

/// The options that leave a load plain, by computation: its six numbers and the trace's file.
pub fn worked_plain_options()
    ensures { SixAndTrace }
{}

/// Values of `--resolve`, by computation: a host, in brackets too, a port and the text of
/// an address. A value without a host, a port from 1 to 65535, or an address is refused.
#[tactic(auto, unfolding(streams::specs::Words::number))]
pub fn worked_resolves()
    ensures read { ReadsResolves }
    ensures refused { RefusesResolves }
{}
