// The type `Knowledge`, its model and its methods.
use crate::Fragment;
use crate::index::IndexEntry;
use crate::knowledge_rows::{KnowledgeRows, is_within};
use crate::search::number_of;
use crate::told::Told;
use photo_record::PicNo;
use photo_version::{Vector, Version};
use std::alloc::{AllocError, Global};
use std::marker::Model;
use std::mem::{replace, swap};

// What is staged.
#[derive(Debug, Drop)]
enum Staged {
    // Nothing. The spare rows have no meaning.
    Nothing,
    // Just what is known already.
    AllKnown,
    // The spare rows, with this index.
    Spare(Vec<IndexEntry>),
}

/// A set of pairs of a picture and a version that is known of it. Its value is a list of fragments in normal form: the star,
/// which is what is known of every picture, and the pictures of which more is known, grouped by what is known of them. Two
/// knowledges of the same pairs have equal fragments.
///
/// A further set may be staged, in normal form too. It is prepared, and isn't known before it is committed, which wants no
/// memory. Each learning in between leaves nothing staged, even a refused one.
#[derive(Debug, Drop)]
pub struct Knowledge {
    alloc: Global,
    live: KnowledgeRows,
    index: Vec<IndexEntry>,
    spare: KnowledgeRows,
    staged: Staged,
}

impl Model for Knowledge {
    ghost use Rattle.item_knowledge.specs.Staged.{Knowing};
    ghost use Rattle.item_knowledge.specs.Coding.{knowing_code};

    ghost Value = { Knowing };

    ghost coded = { knowing_code };

    ghost use Rattle.item_knowledge.specs.Rows.{fragments_of};
    ghost use Rattle.item_knowledge.specs.Spare.{staged_of, IsWhole};

    ghost view = { λ k. record { known = fragments_of k.live; staged = staged_of k.staged k.live k.spare } };

    ghost invariant = { λ k. IsWhole k.live k.index.items k.staged k.spare };
}

impl Knowledge {
    ghost use Rattle.std.specs.Prelude.{◌≡◌, ◌↔◌, ℕ, ◌<◌, ◌≤◌, ◌+◌, ◌||◌, ◌&&◌, ◌==◌, max, if◌then◌else◌, []};
    ghost use Rattle.std.specs.Prelude.{true, false, nat_le, IsTrue, length, get_or, None, IfOk, IfSome, OnOk, OnErr};
    ghost use Rattle.std.specs.Option.{is_some};
    ghost use Rattle.photo_version.specs.Author.{Author, same_author, author_word};
    ghost use Rattle.photo_version.specs.Version as versions;
    ghost use Rattle.photo_version.specs.Vector as vectors;
    ghost use Rattle.item_knowledge.specs.Tables.{in_order, at};
    ghost use Rattle.item_knowledge.specs.Entries.{bound};
    ghost use Rattle.item_knowledge.specs.Fragments as spec;
    ghost use Rattle.item_knowledge.specs.Rows.{AreRows, fragments_of};
    ghost use Rattle.item_knowledge.specs.Gathering.{IsOperand};
    ghost use Rattle.item_knowledge.specs.Kept.{nothing_known, star_bound, IsOperandKnown};
    ghost use Rattle.item_knowledge.specs.Spare.{IsJoined};
    ghost use Rattle.item_knowledge.specs.Staged.{settled, IsStagedUnion};

    /// A knowledge of nothing. Its only error is want of memory.
    pub fn new(alloc: Global) -> Result<Knowledge, AllocError>
        ensures value { IfOk result (λ k. k ≡ settled nothing_known) }
        ensures nothing { IfOk result (λ k. (p : ℕ) (v : versions.Version) → spec.knows k.known p v ≡ false) }
    {
        let live = KnowledgeRows::of_star(alloc, &[])?;
        Ok(Knowledge {
            alloc,
            live,
            index: Vec::new(alloc),
            spare: KnowledgeRows::none(alloc),
            staged: Staged::Nothing,
        })
    }

    /// Whether the version is known of the picture. Takes no memory.
    #[tactic(auto, using(crate::proofs::KeptLemmas::number_known, crate::proofs::KeptLemmas::has_known))]
    pub fn knows(&self, picture: PicNo, version: Version) -> bool
        ensures { result ≡ spec.knows self.now.known picture version }
    {
        let number = number_of(&self.index, picture.value());
        self.has_at(number, version)
    }

    // Whether the fragment of a number has a version. Each fragment has all that the star has.
    #[tactic(auto, using(crate::proofs::KeptLemmas::kept_vector, crate::proofs::JoinLemmas::vector_order))]
    #[inline(always)]
    fn has_at(&self, number: usize, version: Version) -> bool
        requires { number < length self.now.known }
        ensures { result ≡ nat_le version.number (bound (spec.entries_at self.now.known number) (author_word version.author)) }
    {
        u64::from(version.n()) <= self.live.bound(number, version.author().word())
    }

    /// The number of fragments, with the star.
    pub fn fragments(&self) -> usize
        ensures value { result ≡ length self.now.known }
        ensures normal { spec.is_normal self.now.known ≡ true }
    {
        self.live.len()
    }

    /// Fragment number `k`; number 0 is the star. It is lent, and nothing is copied.
    #[tactic(auto, using(crate::proofs::KeptLemmas::kept_vector))]
    pub fn fragment(&self, k: usize) -> Fragment<'_>
        requires { k < length self.now.known }
        ensures { result ≡ get_or self.now.known k spec.nothing }
    {
        self.live.fragment(k)
    }

    /// Whether both know the same pairs. Takes no memory.
    pub fn same(&self, other: &Knowledge) -> bool
        ensures value { IsTrue result ↔ (self.now.known ≡ other.now.known) }
        ensures pairs { IsTrue result ↔ ((p : ℕ) (v : versions.Version) → 0 < p → spec.knows self.now.known p v
            ≡ spec.knows other.now.known p v) }
    {
        // Fields are read because the proof then knows the invariants: both are in normal form.
        let _index = &self.index;
        let _other_index = &other.index;
        self.has_all(other) && other.has_all(self)
    }

    /// Whether each pair that the other knows is known here too. Takes no memory.
    #[tactic(auto, using(crate::proofs::KeptLemmas::kept_operand))]
    pub fn has_all(&self, other: &Knowledge) -> bool
        ensures { IsTrue result ↔ ((p : ℕ) (v : versions.Version) → 0 < p → spec.knows other.now.known p v ≡ true
            → spec.knows self.now.known p v ≡ true) }
    {
        is_within(&other.live, &other.index, &self.live, &self.index)
    }

    /// What is known of the picture. Its only error is want of memory.
    pub fn of(&self, picture: PicNo) -> Result<Vector, AllocError>
        ensures { IfOk result (λ vector. (v : versions.Version) → vectors.denotes vector v ≡ spec.knows self.now.known picture v) }
    {
        let number = number_of(&self.index, picture.value());
        self.live.fragment(number).vector(self.alloc)
    }

    // Stages the union of what is known and what an operand denotes. It wants no memory where all of that is known already.
    #[tactic(auto, using(crate::proofs::KeptLemmas::kept_operand))]
    fn stage_union(&mut self, rows: &KnowledgeRows, index: &[IndexEntry]) -> Result<(), AllocError>
        requires rows { AreRows rows.now }
        requires operand { IsOperand (fragments_of rows.now) index.now }
        ensures known { self.new.known ≡ self.old.known }
        ensures there { OnOk result (is_some self.new.staged ≡ true) }
        ensures joined { OnOk result (IfSome self.new.staged (λ s. IsJoined self.old.known (fragments_of rows.now) index.now s)) }
        ensures refused { OnErr result (self.new.staged ≡ None) }
        ensures wanted { OnErr result (IsOperandKnown self.old.known (fragments_of rows.now) index.now → ⊥) }
    {
        self.staged = Staged::Nothing;
        if is_within(rows, index, &self.live, &self.index) {
            self.staged = Staged::AllKnown;
            return Ok(());
        }
        let written = self
            .live
            .union(self.alloc, &self.index, rows, index, &mut self.spare)?;
        self.staged = Staged::Spare(written);
        Ok(())
    }

    /// Prepares to learn all that the other knows: stages the union, and leaves what is known as it is. Its only error is want
    /// of memory, which leaves nothing staged. It wants no memory where the other knows nothing more.
    #[tactic(auto, using(crate::proofs::KeptLemmas::kept_operand))]
    pub fn stage(&mut self, other: &Knowledge) -> Result<(), AllocError>
        ensures known { self.new.known ≡ self.old.known }
        ensures staged { OnOk result (IsStagedUnion self.new.staged self.old.known other.now.known) }
        ensures refused { OnErr result (self.new.staged ≡ None) }
        ensures wanted { OnErr result (spec.IsWithin other.now.known self.old.known → ⊥) }
    {
        self.stage_union(&other.live, &other.index)?;
        Ok(())
    }

    /// Prepares to learn what is told, as `stage` prepares to learn what another knows. Its only error is want of memory, which
    /// leaves nothing staged. It wants no memory where all of it is known.
    pub fn stage_told(&mut self, told: &Told) -> Result<(), AllocError>
        ensures known { self.new.known ≡ self.old.known }
        ensures staged { OnOk result (IsStagedUnion self.new.staged self.old.known told.now) }
        ensures star { (a : Author) → star_bound told.now a ≡ 0 }
        ensures refused { OnErr result (self.new.staged ≡ None) }
        ensures wanted { OnErr result (spec.IsWithin told.now self.old.known → ⊥) }
    {
        let (rows, index) = told.parts();
        self.stage_union(rows, index)?;
        Ok(())
    }

    /// Whether something is staged.
    pub fn staged(&self) -> bool
        ensures there { result ≡ is_some self.now.staged }
        ensures normal { IfSome self.now.staged (λ s. spec.is_normal s ≡ true) }
    {
        match &self.staged {
            Staged::Nothing => false,
            _ => true,
        }
    }

    /// Replaces what is known by what is staged. It takes no memory.
    pub fn commit(&mut self)
        requires { is_some self.old.staged ≡ true }
        ensures { IfSome self.old.staged (λ s. self.new ≡ settled s) }
    {
        if let Staged::Spare(index) = replace(&mut self.staged, Staged::Nothing) {
            self.index = index;
            swap(&mut self.live, &mut self.spare);
            self.spare.clear();
        }
    }

    /// Leaves nothing staged. It takes no memory.
    pub fn unstage(&mut self)
        ensures { self.new ≡ settled self.old.known }
    {
        self.staged = Staged::Nothing;
        self.spare.clear();
    }

    /// Learns all versions of the vector for the picture. Its only error is want of memory, which changes nothing that is
    /// known.
    pub fn learn(&mut self, picture: PicNo, vector: &Vector) -> Result<(), AllocError>
        ensures star { OnOk result ((a : Author) → star_bound self.new.known a ≡ star_bound self.old.known a) }
        ensures learned { OnOk result ((p : ℕ) (v : versions.Version) → 0 < p → spec.knows self.new.known p v
            ≡ (spec.knows self.old.known p v || ((picture == p) && vectors.denotes vector.now v))) }
        ensures staged { self.new.staged ≡ None }
        ensures refused { OnErr result (self.new.known ≡ self.old.known) }
    {
        self.unstage();
        let table = [(picture, vector.try_clone()?)];
        self.learn_table(&table)?;
        Ok(())
    }

    // Learns for each picture of a table all versions of the vector beside it.
    fn learn_table(&mut self, table: &[(PicNo, Vector)]) -> Result<(), AllocError>
        requires { in_order table.now ≡ true }
        ensures star { OnOk result ((a : Author) → star_bound self.new.known a ≡ star_bound self.old.known a) }
        ensures learned { OnOk result ((p : ℕ) (v : versions.Version) → 0 < p → spec.knows self.new.known p v
            ≡ (spec.knows self.old.known p v || vectors.denotes (at [] table.now p) v)) }
        ensures staged { self.new.staged ≡ None }
        ensures refused { OnErr result (self.new.known ≡ self.old.known) }
    {
        self.unstage();
        let told = Told::of_table(self.alloc, table)?;
        self.stage_told(&told)?;
        self.commit();
        Ok(())
    }

    /// Learns all that the other knows. Its only error is want of memory, which changes nothing that is known. It wants no
    /// memory where the other knows nothing more.
    pub fn learn_all(&mut self, other: &Knowledge) -> Result<(), AllocError>
        ensures star { OnOk result ((a : Author) → star_bound self.new.known a
            ≡ max (star_bound self.old.known a) (star_bound other.now.known a)) }
        ensures learned { OnOk result ((p : ℕ) (v : versions.Version) → 0 < p → spec.knows self.new.known p v
            ≡ (spec.knows self.old.known p v || spec.knows other.now.known p v)) }
        ensures staged { self.new.staged ≡ None }
        ensures refused { OnErr result (self.new.known ≡ self.old.known) }
        ensures wanted { OnErr result (spec.IsWithin other.now.known self.old.known → ⊥) }
    {
        self.stage(other)?;
        self.commit();
        Ok(())
    }

    /// Learns an author's next version for every picture. Its only error is want of memory, which changes nothing that is
    /// known.
    pub fn learn_own(&mut self, version: Version) -> Result<(), AllocError>
        requires { version.number ≡ star_bound self.old.known version.author + 1 }
        ensures star { OnOk result ((a : Author) → star_bound self.new.known a
            ≡ (if same_author version.author a then version.number else star_bound self.old.known a)) }
        ensures learned { OnOk result ((p : ℕ) (v : versions.Version) → 0 < p → spec.knows self.new.known p v
            ≡ (spec.knows self.old.known p v || versions.same_version version v)) }
        ensures staged { self.new.staged ≡ None }
        ensures refused { OnErr result (self.new.known ≡ self.old.known) }
    {
        self.unstage();
        let entry = [version.author().word(), u64::from(version.n())];
        let rows = KnowledgeRows::of_star(self.alloc, &entry)?;
        self.stage_union(&rows, &[])?;
        self.commit();
        Ok(())
    }

    /// Learns an author's next version for every picture. The star has a version of the author, and no picture has a later one
    /// than the star. It takes no memory.
    pub fn raise_own(&mut self, version: Version)
        requires first { 0 < star_bound self.old.known version.author }
        requires next { version.number ≡ star_bound self.old.known version.author + 1 }
        requires level { (p n : ℕ) → 0 < p → spec.knows self.old.known p (versions.version version.author n) ≡ true
            → n ≤ star_bound self.old.known version.author }
        ensures star { (a : Author) → star_bound self.new.known a
            ≡ (if same_author version.author a then version.number else star_bound self.old.known a) }
        ensures learned { (p : ℕ) (v : versions.Version) → 0 < p → spec.knows self.new.known p v
            ≡ (spec.knows self.old.known p v || versions.same_version version v) }
        ensures staged { self.new.staged ≡ None }
    {
        self.staged = Staged::Nothing;
        let author = version.author().word();
        let n = u64::from(version.n());
        self.live.raise(author, n);
    }

    /// A copy, with nothing staged. Its only error is want of memory.
    pub fn try_clone(&self) -> Result<Knowledge, AllocError>
        ensures { IfOk result (λ copy. copy ≡ settled self.now.known) }
    {
        let live = self.live.try_clone(self.alloc)?;
        let index = self.index.to_vec(self.alloc)?;
        Ok(Knowledge {
            alloc: self.alloc,
            live,
            index,
            spare: KnowledgeRows::none(self.alloc),
            staged: Staged::Nothing,
        })
    }
}
