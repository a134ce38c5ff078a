ghost use Rattle.std.specs.Prelude.{◌≡◌, ◌<◌, ◌≤◌, ℕ, Bool, suc, true, false, List, length, [], ◌∷◌, ◌++◌, None, Some, slice_get, Option};
ghost use Rattle.cs_chunk.specs.declared.chunk.Chunk.{Chunk};
ghost use Rattle.dx_types.specs.declared.range.ResRange.{ResRange};
ghost use Rattle.core_model.specs.Script.{Ask, Asked, Create_shader, Destroy, No_overwrite, Play, Script, Turn};
ghost use Rattle.core_model.specs.Kept.{BlocksRight};
ghost use Rattle.immediate_ctx.specs.Items.{destroys, overwrites, plain, with_shader};
ghost use Rattle.immediate_ctx.specs.declared.buffers.Buffer.{Buffer};
ghost use Rattle.core_model.specs.Chunking.{call_of, ends_call, is_due, is_entry, stops_next};
ghost use Rattle.core_model.specs.Readings.{In_threads, Reading, may_hand_over};
ghost use Rattle.core_model.specs.Adding.{with_reply, with_turn};
ghost use Rattle.core_model.specs.AppActs.{Acts, Answers, handed_over};
ghost use Rattle.vk_types.specs.declared.op.VkOp.{VkOp};
ghost use Rattle.vk_types.specs.declared.message.Post.{Post};
ghost use Rattle.core_model.specs.CoreState.{Core, End_said, Message, Still_said, last_finished, later, taken_count};
ghost use Rattle.core_model.specs.TakingPosts.{with_post};
ghost use Rattle.immediate_ctx.specs.declared.listing.Own.{Own};
ghost use Rattle.immediate_ctx.specs.declared.listing.Own.TheVariants.{Op, Handed};
ghost use Rattle.immediate_ctx.specs.AppState.{AppState, HandsOver, with_passed};
ghost use Rattle.immediate_ctx.specs.Due.{is_due_by};
ghost use Rattle.immediate_ctx.specs.Readback.{readback_of};
ghost use Rattle.immediate_ctx.specs.declared.readback.Readback.TheVariants.{Still, Waits};
ghost use Rattle.immediate_ctx.specs.Flight.{Fits, OnTheirWay, TakesFirst, awaited, last_upto};
ghost use Rattle.immediate_ctx.specs.Listing.{Kept, expand, with_batch, with_own};
ghost use Rattle.immediate_ctx.specs.Stands.{AppStands, AreLive, FlightStands, IsDestroyed, IsPlain, PlaysTo, IsOpenChunk, IsPostFor, ListingStands, behind_posts, handed_in};

/// Laws of the chunks on their way: where they stand for a state, they do after its next Post was taken, and the chunk that was handed
/// over last has the call that the end waits for.
pub fn flight_stands_after_posts()
    ensures taken { (core : Core) (old new : OnTheirWay) (m : Message) (ms : List Message)
        → FlightStands core old → core.posts ≡ m ∷ ms → TakesFirst old new → FlightStands (with_post m ms core) new }
    ensures last { (core : Core) (f : OnTheirWay) → FlightStands core f → last_upto f ≡ last_finished (core.taken ++ later core) }
{}

/// In a state that the chunks on their way stand for, the Post of the first of them fits: none is dropped.
pub fn first_posts_fit()
    ensures { (core : Core) (f : OnTheirWay) (m : Message) (ms : List Message) (p : Post)
        → FlightStands core f → core.posts ≡ m ∷ ms → p.number ≡ suc (taken_count core)
        → IsPostFor core m (behind_posts ms core) p → Fits f p }
{}

/// Laws of the listing: an operation of the recorder stands behind the others, and so do a chunk's where it is handed over. Where all
/// Posts were taken, the batches that they brought expand it to the whole.
pub fn listing_expands_in_order()
    ensures op { (ops : List (List VkOp)) (own : List Own) (o : VkOp) → expand ops (own ++ Op o ∷ []) ≡ expand ops own ++ o ∷ [] }
    ensures handed { (ops : List (List VkOp)) (own : List Own) (here : List VkOp) → length ops ≡ handed_in own
        → expand (ops ++ here ∷ []) (own ++ Handed ∷ []) ≡ expand ops own ++ here }
    ensures whole { (ops : List (List VkOp)) (core : Core) (k : Kept) → ListingStands ops core k → taken_count core ≡ length ops
        → expand k.batches k.own ≡ core.listing }
{}

/// Laws of the recorder's acts that play no item. Where it stands for a state, it does behind a turn without an entry, with that turn
/// passed. By what it keeps the open chunk is due exactly where the state's is. Where it then hands that chunk over, it stands for the
/// state that the model's hand-over leaves, and the chunk is the state's. With no more than 31 on their way this is free in threads.
pub fn chunks_stand_as_handed_over()
    ensures passed { (script : Script) (names : ℕ → ℕ) (core : Core) (s : AppState) (t : Turn) (ts : List Turn)
        → AppStands script names core s → is_entry t ≡ false
        → AppStands script names (with_turn t ts core) (with_passed (call_of t) (ends_call t) s) }
    ensures due { (script : Script) (names : ℕ → ℕ) (core : Core) (s : AppState) → AppStands script names core s
        → is_due_by s.open_chunk.counts s.in_list (stops_next core.future) ≡ is_due script core.open_chunk.turns core.future }
    ensures handed { (script : Script) (names : ℕ → ℕ) (core : Core) (s new : AppState) (chunk : Chunk)
        → AppStands script names core s → is_due script core.open_chunk.turns core.future ≡ true → HandsOver s chunk new
        → AppStands script names (handed_over core) new }
    ensures chunk { (script : Script) (names : ℕ → ℕ) (core : Core) (s new : AppState) (chunk : Chunk)
        → AppStands script names core s → is_due script core.open_chunk.turns core.future ≡ true → HandsOver s chunk new
        → IsOpenChunk core chunk }
    ensures free { (script : Script) (names : ℕ → ℕ) (core : Core) (s : AppState) → AppStands script names core s
        → awaited s.flight ≡ None → may_hand_over In_threads core ≡ true }
{}

/// Laws of items that change no block. Where the recorder stands for a state, and such an item comes next, its turn leads the state to
/// one that the recorder stands for when it played the item.
pub fn plain_items_stand()
    ensures plain { (script : Script) (names : ℕ → ℕ) (core : Core) (s : AppState) → AppStands script names core s
        → BlocksRight script core.blocks core.is_staging core.owner
        → (reading : Reading) (call item : ℕ) (ends : Bool) (play : Play) (rs : List ResRange) (ts : List Turn)
        → AreLive s.buffers rs → IsPlain play rs
        → PlaysTo reading script names call item ends play rs ts core (plain call item ends rs s) }
    ensures overwrite { (script : Script) (names : ℕ → ℕ) (core : Core) (s : AppState) → AppStands script names core s
        → BlocksRight script core.blocks core.is_staging core.owner
        → (reading : Reading) (call item : ℕ) (ends : Bool) (id from : ℕ) (bytes : List ℕ) (rs : List ResRange)
        (ts : List Turn)
        → PlaysTo reading script names call item ends (No_overwrite (names id) from bytes) rs ts core
        (overwrites call item ends id from (length bytes) s) }
    ensures shader { (script : Script) (names : ℕ → ℕ) (core : Core) (s : AppState) → AppStands script names core s
        → BlocksRight script core.blocks core.is_staging core.owner → (reading : Reading) (call : ℕ) (ts : List Turn)
        → PlaysTo reading script names call call true Create_shader [] ts core (with_shader call s) }
{}

/// The law of the destroy of a live buffer that has a name and a block of its own. Where the recorder stands for a state, and the
/// destroy comes next, its turn leads the state to one that the recorder stands for when it destroyed the buffer.
pub fn destroys_stand()
    ensures { (script : Script) (names : ℕ → ℕ) (core : Core) (s : AppState) → AppStands script names core s
        → (id : ℕ) (b : Buffer) → IsDestroyed names core.owner s.buffers id b
        → (reading : Reading) (call : ℕ) (ts : List Turn)
        → PlaysTo reading script names call call true (Destroy (names id)) [] ts core (destroys call id s) }
{}

/// Laws of the end and of calls that ask. Where the last chunk is finished, the end is the model's next act. A pending call is told its
/// last use and a lesser call, the greatest that is finished, as the model tells it. While the end or a call waits, the model has no
/// act.
pub fn answers_stand_as_given()
    ensures ended { (script : Script) (names : ℕ → ℕ) (core : Core) (s : AppState) → AppStands script names core s
        → (reading : Reading) → core.ended ≡ false → is_due script core.open_chunk.turns core.future ≡ false
        → core.future ≡ [] → last_upto s.flight ≤ s.flight.done
        → (next : Core) × Acts reading script core next × AppStands script names next (record s { ended = true })
        × (next.replies ≡ core.replies ++ End_said ∷ []) }
    ensures end_waits { (script : Script) (names : ℕ → ℕ) (core : Core) (s : AppState) → AppStands script names core s
        → (reading : Reading) → is_due script core.open_chunk.turns core.future ≡ false → core.future ≡ []
        → s.flight.done < last_upto s.flight → (other : Core) → Acts reading script core other → ⊥ }
    ensures still { (script : Script) (names : ℕ → ℕ) (core : Core) (s : AppState) → AppStands script names core s
        → (reading : Reading) (call : ℕ) (ask : Ask) (used : Option ℕ) (may_pend : Bool) (ts : List Turn) (u d : ℕ)
        → readback_of used may_pend s.flight.done ≡ Still u d → (d < u) × (d ≡ s.flight.done)
        × Answers call ask used may_pend (with_turn (Asked call ask used may_pend) ts core)
        (with_reply (Still_said call u d) (with_turn (Asked call ask used may_pend) ts core))
        × AppStands script names (with_reply (Still_said call u d) (with_turn (Asked call ask used may_pend) ts core))
        (with_passed call true s) }
    ensures waits { (script : Script) (names : ℕ → ℕ) (core : Core) (s : AppState) → AppStands script names core s
        → (reading : Reading) (call : ℕ) (ask : Ask) (used : Option ℕ) (may_pend : Bool) (ts : List Turn) (u : ℕ)
        → is_due script core.open_chunk.turns core.future ≡ false → core.future ≡ Asked call ask used may_pend ∷ ts
        → readback_of used may_pend s.flight.done ≡ Waits u → (other : Core) → Acts reading script core other → ⊥ }
{}

/// Laws of what is kept of the listing: where it stands for the state's, it does with one operation more, with one chunk more that was
/// handed over, and with one Post more.
pub fn listing_stands_as_it_grows()
    ensures op { (ops : List (List VkOp)) (core next : Core) (k : Kept) (o : VkOp) → ListingStands ops core k
        → next.listing ≡ core.listing ++ o ∷ [] → taken_count next ≡ taken_count core
        → ListingStands ops next (with_own (Op o) k) }
    ensures handed { (ops : List (List VkOp)) (core next : Core) (k : Kept) (here : List VkOp) → ListingStands ops core k
        → taken_count core ≤ length ops → next.listing ≡ core.listing ++ here → taken_count next ≡ taken_count core
        → ListingStands (ops ++ here ∷ []) next (with_own Handed k) }
    ensures post { (ops : List (List VkOp)) (core : Core) (k : Kept) (m : Message) (ms : List Message)
        (brought : List VkOp) → ListingStands ops core k → slice_get ops (taken_count core) ≡ Some brought
        → ListingStands ops (with_post m ms core) (with_batch brought k) }
{}
