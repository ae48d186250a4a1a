// What follows from the steps of a session.
ghost use Rattle.std.specs.Prelude.{ℕ, ◌≡◌, List, ◌++◌, Contains, codes};
ghost use Rattle.std.specs.Fmt.{decimal};
ghost use Rattle.volume_codec.specs.Files.{File};
ghost use Rattle.machine.specs.declared.act.Reply.{Reply};
ghost use Rattle.machine.specs.declared.act.Step.{Step};
ghost use Rattle.history.specs.History.{Acknowledge};
ghost use Rattle.machine.specs.State.{Whole};
ghost use Rattle.engine.specs.Survival.{history_of};
ghost use Rattle.session.specs.declared.notes.Notes.{Notes};
ghost use Rattle.session.specs.Answers.{AnswersRequest};
ghost use Rattle.session.specs.Commits.{CommitsMark};
ghost use Rattle.session.specs.Requests.{asks_commit};
ghost use Rattle.session.specs.Sessions.{no_notes};
ghost use Rattle.session.specs.Steps.{Makes};

use device::Device;

/// The history since the session's start acknowledges each mark that a commit returns (`mark`). This history is that of
/// the steps before the commit, the commit's own steps, and any later ones. `engine` proves that an acknowledged mark
/// survives. The same holds if a commit's answer line is `committed` and a number (`line`).
pub fn acknowledges<D: Device>(device: &D)
    ensures mark { (files : List File) (start mid new : Whole D) (between after : Notes)
        (earlier steps later : List Step) (replied replies more : List Reply) (p mark : ℕ)
        → Makes D.Device start no_notes earlier replied mid between → Makes D.Device mid between steps replies new after
        → CommitsMark p between mark steps replies
        → Contains (history_of files start (earlier ++ (steps ++ later)) (replied ++ (replies ++ more)))
        (Acknowledge mark) }
    ensures line { (files : List File) (start mid new : Whole D) (between after : Notes)
        (earlier steps later : List Step) (replied replies more : List Reply) (p : ℕ) (number : List ℕ)
        → Makes D.Device start no_notes earlier replied mid between → Makes D.Device mid between steps replies new after
        → AnswersRequest between (asks_commit p) (codes "committed " ++ number) steps replies
        → (mark : ℕ) × (number ≡ decimal mark)
        × Contains (history_of files start (earlier ++ (steps ++ later)) (replied ++ (replies ++ more)))
        (Acknowledge mark) }
{}
