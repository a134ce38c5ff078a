ghost use Rattle.std.specs.Prelude.{◌≡◌, ℕ, ◌+◌, ◌-◌, ◌*◌, ◌/◌, ◌%◌, ◌<◌, ◌≤◌, ◌==◌, List, [], ◌∷◌, length, map};
ghost use Rattle.std.specs.Prelude.{take, Some};
ghost use Rattle.dx_types.specs.declared.range.Range.{Range};
ghost use Rattle.base_lemmas.specs.Lists.{numbers_from};
ghost use Rattle.vk_types.specs.Memory.{Memory, range, put, byte_of, word_of, byte_in, byte_in_words, number_at};
ghost use Rattle.vk_types.specs.Effects.{words_in, is_skipped};
ghost use Rattle.d3d_model.specs.Regions as lists;
ghost use Rattle.d3d_model.specs.Regions.{filled, slice, words_of, spelled, word_at, repeated};
ghost use Rattle.d3d_model.specs.Memory.{result_of_word};
ghost use Rattle.core_model.specs.Script.{put_bytes, padded};
ghost use Rattle.log_script.specs.Showing.{Shows};

/// In-order Direct3D has the bytes of each buffer as a list, and the core has one memory. Where a buffer's bytes
/// stand in the memory, each write, creation, discard, copy, store and clear leaves in the memory the bytes that it
/// leaves in the list, and a read, the words of a dispatch, its counts and a predicate are the same of both.
pub fn lists_and_memory_agree()
    ensures writes { (m : Memory) (b from : ℕ) (old piece : List ℕ) → Shows m b old → from + length piece ≤ length old
        → Shows (put_bytes (range b from (from + length piece)) piece m) b (lists.put old from piece) }
    ensures others { (m : Memory) (r : Range) (piece : ℕ → ℕ) (b : ℕ) (bytes : List ℕ) → (b ≡ r.block → ⊥)
        → Shows m b bytes
        → Shows (put r piece m) b bytes }
    ensures creates { (m : Memory) (b size : ℕ) (piece : List ℕ) → length piece ≤ size
        → Shows (put_bytes (range b 0 size) piece m) b (filled size piece) }
    ensures discards { (m : Memory) (b from size : ℕ) (piece : List ℕ) → from + length piece ≤ size
        → Shows (put_bytes (range b 0 size) (padded from piece size) m) b (lists.put (filled size []) from piece) }
    ensures reads { (m : Memory) (b from to : ℕ) (bytes : List ℕ) → Shows m b bytes → from ≤ to → to ≤ length bytes
        → map (byte_of m (range b from to)) (numbers_from 0 (to - from)) ≡ slice bytes from to }
    ensures words { (m : Memory) (b from to : ℕ) (bytes : List ℕ) → Shows m b bytes → from ≤ to → to ≤ length bytes
        → words_in m (range b from to) ≡ words_of (slice bytes from to) }
    ensures word { (m : Memory) (b offset : ℕ) (bytes : List ℕ) → Shows m b bytes → offset + 4 ≤ length bytes
        → word_of m (range b offset (offset + 4)) 0 ≡ word_at bytes offset }
    ensures counts { (m : Memory) (b offset : ℕ) (bytes : List ℕ) → Shows m b bytes → offset + 12 ≤ length bytes
        → (word_of m (range b offset (offset + 12)) 0 ≡ word_at bytes offset)
        × (word_of m (range b offset (offset + 12)) 1 ≡ word_at bytes (offset + 4))
        × (word_of m (range b offset (offset + 12)) 2 ≡ word_at bytes (offset + 8)) }
    ensures copies { (m : Memory) (s t from to len : ℕ) (source target : List ℕ) → Shows m s source → Shows m t target
        → from + len ≤ length source → to + len ≤ length target
        → Shows (put (range t to (to + len)) (byte_of m (range s from (from + len))) m) t
        (lists.put target to (slice source from (from + len))) }
    ensures stores { (m : Memory) (b from : ℕ) (old words : List ℕ) → Shows m b old
        → from + 4 * length words ≤ length old
        → Shows (put (range b from (from + 4 * length words)) (byte_in_words words) m) b
        (lists.put old from (spelled words)) }
    ensures fills { (m : Memory) (b from n word : ℕ) (old : List ℕ) → Shows m b old → from + 4 * n ≤ length old
        → Shows (put (range b from (from + 4 * n)) (λ k. byte_in word (k % 4)) m) b
        (lists.put old from (spelled (repeated n (word ∷ [])))) }
    ensures clears { (m : Memory) (b from n unit v0 v1 v2 v3 : ℕ) (old : List ℕ) → Shows m b old → 0 < unit → unit ≤ 4
        → from + 4 * unit * n ≤ length old
        → Shows (put (range b from (from + 4 * unit * n)) (λ k. byte_in
        (number_at (v0 ∷ v1 ∷ v2 ∷ v3 ∷ []) (k / 4 % unit)) (k % 4)) m) b
        (lists.put old from (spelled (repeated n (take unit (v0 ∷ v1 ∷ v2 ∷ v3 ∷ []))))) }
    ensures skips { (m : Memory) (b offset value : ℕ) (bytes : List ℕ) → Shows m b bytes → offset + 4 ≤ length bytes
        → is_skipped (Some (record { at = range b offset (offset + 4); value = value })) m
        ≡ (result_of_word (word_at bytes offset) == value) }
{}
