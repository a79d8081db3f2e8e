//! Laws of the filter language. Each function's contract states a law; its body is empty.

ghost use Rattle.std.specs.Prelude.{◌≡◌, ◌≢◌, ◌⊎◌, ℕ, ℤ, ◌+◌, ◌≤◌, true, List, length, take};
ghost use Rattle.std.specs.List.{list_any};
ghost use Rattle.photo_record.specs.Limits.{IsDay};
ghost use Rattle.photo_record.specs.Showing.{day_text};
ghost use Rattle.photo_filter_text.specs.Tree.{Tree, height};
ghost use Rattle.photo_filter_text.specs.Tokens.{Token, tokens_of};
ghost use Rattle.photo_filter_text.specs.Grammar.{IsExpr};
ghost use Rattle.photo_filter_text.specs.Limits.{max_tokens, max_height};
ghost use Rattle.photo_filter_text.specs.Fronts.{Begins};
ghost use Rattle.photo_filter_text.specs.Memory.{MayWantMemory, is_keeper};
ghost use Rattle.photo_filter_text.specs.Fault.{IsFilter, IsFault};
ghost use Rattle.photo_filter_text.specs.Printed.{text_of, date_text, IsSound};
ghost use Rattle.photo_filter_text.specs.Examples.{TheTokens, TheTrees, TheTexts, TheFaults, TheFilters};
ghost use Rattle.photo_filter_text.specs.declared.fault.FilterFault.{FilterFault};
ghost use Rattle.photo_filter_text.specs.declared.fault.FilterFault.TheVariants.{NoMemory};

/// The grammar is unambiguous: tokens have at most one tree.
pub fn one_tree()
    ensures { (tokens : List Token) (one other : Tree) → IsExpr tokens one → IsExpr tokens other → one ≡ other }
{}

/// A filter within the limits has no fault, and any other tokens have at most one fault. Want of memory doesn't count here.
pub fn one_fault()
    ensures none { (tokens : List Token) (tree : Tree) (fault : FilterFault) → IsFilter tokens tree → IsFault tokens fault
        → fault ≡ NoMemory }
    ensures one { (tokens : List Token) (fault other : FilterFault) → fault ≢ NoMemory → other ≢ NoMemory
        → IsFault tokens fault → IsFault tokens other → fault ≡ other }
{}

/// Any tokens are a filter within the limits or have a fault other than want of memory.
pub fn filter_or_fault()
    ensures { (tokens : List Token)
        → ((tree : Tree) × IsFilter tokens tree) ⊎ ((fault : FilterFault) × (fault ≢ NoMemory) × IsFault tokens fault) }
{}

/// Reading wants memory only where it keeps something, and never in place of an earlier fault: some filter begins with the
/// tokens before that place, and the tokens up to it include `(`, `not`, `and`, `or` or `keyword`.
pub fn memory_wanted()
    ensures { (tokens : List Token) → MayWantMemory tokens
        → (before : ℕ) × Begins (take before tokens) × (list_any is_keeper (take (before + 1) tokens) ≡ true) }
{}

/// The printed text of a tree within both limits is a filter of that tree, so reading it gives the tree back.
pub fn printed_again()
    ensures { (tree : Tree) → IsSound tree → length (tokens_of (text_of tree)) ≤ max_tokens → height tree ≤ max_height
        → IsFilter (tokens_of (text_of tree)) tree }
{}

/// Filters and records write days alike.
pub fn days_are_shown()
    ensures { (day : ℤ) → IsDay day → date_text day ≡ day_text day }
{}

/// The definitions, worked for some texts: tokens, trees, printed forms, faults, and filters just within the limits.
pub fn examples()
    ensures tokens { TheTokens }
    ensures trees { TheTrees }
    ensures texts { TheTexts }
    ensures faults { TheFaults }
    ensures filters { TheFilters }
{}
