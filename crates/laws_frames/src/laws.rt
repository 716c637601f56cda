//! What flattened code does. The functions do nothing: their contracts are the laws.

ghost use Rattle.std.specs.Prelude.{◌≡◌, ◌≤◌, ℕ, List, Option, None, Some, slice_get, true};
ghost use Rattle.clu_wir.specs.declared.region.Arm.{Arm};
ghost use Rattle.clu_handlers.specs.Regions.{IsInnermost, arm_in};
ghost use Rattle.clu_handlers.specs.declared.region.Found.{Found};
ghost use Rattle.clu_handlers.specs.declared.region.Region.{Region};
ghost use Rattle.clu_frames.specs.Plain.{Step};
ghost use Rattle.clu_flat_meaning.specs.Image.{Body, Image, Instance, at_end};
ghost use Rattle.clu_flat_meaning.specs.Machine.{Comes, Ended, Machine, ended, invoked, started};
ghost use Rattle.clu_word_meaning.specs.Growing.{Front};
ghost use Rattle.clu_word_meaning.specs.Levels.{Callee, WordRoutine, framed, level, run};
ghost use Rattle.clu_word_meaning.specs.World.{World};
ghost use Rattle.clu_word_meaning.specs.Words.{State, no_body, out_of_turns};
ghost use Rattle.laws_frames.specs.Calls.{AtCall, Called, calling_from};
ghost use Rattle.laws_frames.specs.Ending.{IsClosed, RunEnds, SomeImage};
ghost use Rattle.laws_frames.specs.Limits.{Allows, RunEndsOrFills, endless};
ghost use Rattle.laws_frames.specs.Finding.{WordsTell, searched};
ghost use Rattle.laws_frames.specs.Promises.{comes_back};
ghost use Rattle.laws_frames.specs.Tables.{flat_arm};
ghost use Rattle.laws_frames.specs.Flattened.{IsProgram, descriptor_of};

/// At each level of turns each routine that is called, from any place of any routine, does what it means in word code: the machine
/// comes back with its results or its exception, with what is below as it was; or, where the turns are spent, it runs on with the
/// same output. Its steps are at least the turns, and the stack and the store within the meters.
pub fn levels()
    ensures { (image : Image) (program : ℕ → Option Callee) → IsProgram image program →
        (n w live high slot : ℕ) (ws : List ℕ) (turns : ℕ) (st : State) (c : Machine) (body : Body) (x : Step) →
        image.body c.who.body ≡ Some body → slice_get body.code c.pc ≡ Some x → comes_back x ≡ true → c.top ≤ live → high ≤ c.top → image.bottom ≤ c.top →
        AtCall image (calling_from high c) slot ws st c →
        Called image (calling_from high c) (invoked image (image.descriptor w) slot c) (level program n w live no_body ws turns st) }
{}

/// A run of the image from its start ends as the program in word code does, with the same world: normally, or with the text of an
/// exception that no routine took. Where the program is out of turns, it runs on with the same output.
pub fn program_runs()
    ensures { (image : Image) (program : ℕ → Option Callee) → IsProgram image program → IsClosed image →
        (start end : ℕ) (q : WordRoutine) (who : Instance) → program start ≡ Some (framed q) →
        image.descriptor start ≡ Some (descriptor_of who) → image.entry end ≡ Some at_end →
        (live : ℕ) → image.bottom ≤ live → (world : World) (turns : ℕ) →
        RunEnds image (started image end who world) live (run program start live world turns) }
{}

/// The same of an image with limits: it ends so, or full after a front of what is written, and then the live words of the program or
/// its store pass the limit. So an image is full only where its program exceeds a limit.
pub fn program_runs_within()
    ensures { (image : Image) (program : ℕ → Option Callee) → IsProgram (endless image) program → IsClosed (endless image) →
        (start end : ℕ) (q : WordRoutine) (who : Instance) → program start ≡ Some (framed q) →
        image.descriptor start ≡ Some (descriptor_of who) → image.entry end ≡ Some at_end →
        (live : ℕ) → image.bottom ≤ live → (world : World) (turns : ℕ) →
        RunEndsOrFills image (started image end who world) live (run program start live world turns) }
{}

/// However a run of an image with limits ends, it has written all that its program had written before it exceeded one.
pub fn writes_what_fits()
    ensures { (image : Image) (program : ℕ → Option Callee) → IsProgram (endless image) program → IsClosed (endless image) →
        (start end : ℕ) (q : WordRoutine) (who : Instance) → program start ≡ Some (framed q) →
        image.descriptor start ≡ Some (descriptor_of who) → image.entry end ≡ Some at_end →
        (live : ℕ) → image.bottom ≤ live → (world : World) (turns : ℕ) (st : State) →
        run program start live world turns ≡ out_of_turns st → Allows image live st →
        (machine : Machine) (how : Ended) → Comes image (started image end who world) machine → machine.mode ≡ ended how →
        Front st.world.output machine.world.output }
{}

/// The search in an image takes the arm that `Regions::find` of clu_handlers gives at the place, or none where it gives none.
pub fn finds_arms()
    ensures found { (word : List ℕ → ℕ) (rs : List Region) (pc v : ℕ) (name : List ℕ) → WordsTell word rs v name →
        (found : Found) → IsInnermost rs pc name found → (r : Region) (a : Arm) →
        slice_get rs found.region ≡ Some r → slice_get r.arms.items found.arm ≡ Some a →
        searched word rs pc v ≡ Some (flat_arm word a) }
    ensures none { (word : List ℕ → ℕ) (rs : List Region) (pc v : ℕ) (name : List ℕ) → WordsTell word rs v name →
        ((n : ℕ) → arm_in rs pc name n ≡ None) → searched word rs pc v ≡ None }
{}

/// What these laws want of an image holds of one, so that no part of it contradicts another.
pub fn premises_hold()
    ensures { SomeImage }
{}
