//! Laws of the definitions: each function does nothing, and its contract is the law.
ghost use Rattle.std.specs.Prelude.{ℕ, List, ◌≡◌, ◌↔◌, ◌<◌, ◌≤◌, ◌+◌, ◌++◌, length, take};
ghost use Rattle.std.specs.Prelude.{drop, slice_index};
ghost use Rattle.stm_image.specs.Canon.{canon};
ghost use Rattle.stm_image.specs.Lay.{lay, laid_byte, AgreesWith};
ghost use Rattle.stm_image.specs.Pairs.{Pairs, IsImage, IsNext, HasNone, byte_at};
ghost use Rattle.stm_image.specs.Text.{HasVerdict, Means, FaultStands};
ghost use Rattle.stm_image.specs.declared.faults.HexFault.{HexFault};

/// The canonical text of an image means that image, and nothing else.
pub fn canonical_text_means_the_image()
    ensures means { (set : Pairs) → IsImage set → Means (canon set) set }
    ensures nothing_else { (set other : Pairs) →
        IsImage set → Means (canon set) other → other ≡ set }
    ensures faultless { (set : Pairs) (fault : HexFault) → IsImage set
        → ¬ FaultStands (canon set) fault }
{}

/// Every text has a verdict: it means a set, or a fault stands in it.
pub fn every_text_has_a_verdict()
    ensures { (text : List ℕ) → HasVerdict text }
{}

/// A text has one verdict at most: one meaning, or one fault.
pub fn verdict_is_unique()
    ensures meaning { (text : List ℕ) (set other : Pairs) →
        Means text set → Means text other → set ≡ other }
    ensures fault { (text : List ℕ) (fault other : HexFault) →
        FaultStands text fault → FaultStands text other → fault ≡ other }
    ensures never_both { (text : List ℕ) (set : Pairs) (fault : HexFault) →
        Means text set → ¬ FaultStands text fault }
{}

/// A set laid over bytes by parts is the set laid over them whole.
pub fn laying_by_parts()
    ensures length { (set : Pairs) (address : ℕ) (bytes : List ℕ) →
        length (lay set address bytes) ≡ length bytes }
    ensures front { (set : Pairs) (address count : ℕ) (bytes : List ℕ) →
        take count (lay set address bytes) ≡ lay set address (take count bytes) }
    ensures back { (set : Pairs) (address count : ℕ) (bytes : List ℕ) →
        drop count (lay set address bytes) ≡ lay set (address + count) (drop count bytes) }
    ensures joined { (set : Pairs) (address : ℕ) (front back : List ℕ) →
        lay set address (front ++ back)
        ≡ lay set address front ++ lay set (address + length front) back }
{}

/// A set laid over bytes has its own byte at each place that it names, and leaves
/// the others as they were.
pub fn laying_keeps_places()
    ensures each { (set : Pairs) (address : ℕ) (bytes : List ℕ) (i : ℕ) → i < length bytes →
        slice_index (lay set address bytes) i
        ≡ laid_byte (byte_at set (address + i)) (slice_index bytes i) }
    ensures past { (set : Pairs) (address : ℕ) (bytes : List ℕ) →
        HasNone set address → lay set address bytes ≡ bytes }
    ensures before { (set : Pairs) (address : ℕ) (bytes : List ℕ) (next : ℕ × ℕ) →
        IsNext set address next → address + length bytes ≤ next.0 → lay set address bytes ≡ bytes }
{}

/// A set laid over bytes leaves them as they are exactly where the two agree.
pub fn laying_nothing_new()
    ensures { (set : Pairs) (address : ℕ) (bytes : List ℕ) →
        (lay set address bytes ≡ bytes) ↔ AgreesWith set address bytes }
{}
