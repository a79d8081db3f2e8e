//! Laws of what texts denote. Each function's contract states a law; its body is empty.
ghost use Rattle.std.specs.Prelude.{◌≡◌, ℕ, ◌≤◌, true, ℤ, List, length, Ok};
ghost use Rattle.std.specs.Str.{IsUtf8};
ghost use Rattle.std.specs.Cmp.Lexicographic.{slice_cmp};
ghost use Rattle.std.specs.Ordering.{nat_cmp, int_cmp};
ghost use Rattle.photo_record.specs.Limits.{IsDay, max_words};
ghost use Rattle.photo_record.specs.Calendar.{Civil, IsDateOf, is_date, day_number, date_of};
ghost use Rattle.photo_record.specs.Word.{IsWord, is_rising};
ghost use Rattle.photo_record.specs.Reading.{word_of_text, words_of_text};
ghost use Rattle.photo_record.specs.Examples.{TheRatings, TheDays, TheWords, TheSets, TheShown};

use crate::{Day, PicNo, Rating, Word};

/// Day numbers in range and dates of the years 0 to 9999 correspond one to one.
pub fn days_are_dates()
    ensures dates { (day : ℤ) → IsDay day → IsDateOf day (date_of day) }
    ensures days { (d : Civil) → is_date d ≡ true → IsDay (day_number d) }
    ensures one_to_one { (d : Civil) → is_date d ≡ true → date_of (day_number d) ≡ d }
{}

/// Reading a word gives a word, and a word reads as itself.
pub fn words_are_read(text: &str)
    ensures word { (w : List ℕ) → IsUtf8 w → word_of_text text.now ≡ Ok w → IsWord w }
    ensures itself { IsWord text.now → word_of_text text.now ≡ Ok text.now }
{}

/// A set that is read is in rising order, so it has no word twice, and it has at most sixteen words.
pub fn sets_are_read(text: &str)
    ensures rising { (words : List (List ℕ)) → words_of_text text.now ≡ Ok words → is_rising words ≡ true }
    ensures few { (words : List (List ℕ)) → words_of_text text.now ≡ Ok words → length words ≤ max_words }
{}

/// Ratings, picture numbers and days are ordered by their numbers, and words by their bytes.
pub fn orders()
    ensures ratings { (a b : ℕ) → ⟦<Rating as Ord>⟧.cmp a b ≡ nat_cmp a b }
    ensures pictures { (a b : ℕ) → ⟦<PicNo as Ord>⟧.cmp a b ≡ nat_cmp a b }
    ensures days { (a b : ℤ) → ⟦<Day as Ord>⟧.cmp a b ≡ int_cmp a b }
    ensures words { (v w : List ℕ) → ⟦<Word as Ord>⟧.cmp v w ≡ slice_cmp nat_cmp v w }
{}

/// The definitions, worked for some texts and values.
pub fn examples()
    ensures ratings { TheRatings }
    ensures days { TheDays }
    ensures words { TheWords }
    ensures sets { TheSets }
    ensures shown { TheShown }
{}
