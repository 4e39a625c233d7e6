ghost use Rattle.std.specs.Prelude.{◌≡◌, ℕ, ◌<◌, ◌≤◌, ◌+◌, ◌/◌, ◌%◌, ◌==◌, Bool, true, if◌then◌else◌, length, IfSome};
ghost use Rattle.file_model.specs.Sizes.{slot_count, slot_size, all_slots_size, content_offset};
ghost use Rattle.file_model.specs.Slots.{slot_start, bytes_from, with_bytes};

/// What the slots of files are kept in. Offsets count from where slot 0 begins, and are below 4,194,304.
pub trait FileBytes {
    // the byte at each offset
    ghost bytes: { Self → ℕ → ℕ };

    // whether each slot may be written
    ghost is_ready: { Self → ℕ → Bool };

    // how many bytes of each slot's content, from its start on, are not written, also where the slot is ready
    ghost spared: { Self → ℕ → ℕ };

    // whether the header of each slot may be written
    ghost has_header: { Self → ℕ → Bool };

    // what a write leaves as it is
    ghost keeps: { Self → Self → Type 0 };

    /// The byte at an offset.
    fn byte(&self, offset: u32) -> u8
        requires { offset < all_slots_size }
        ensures { result ≡ bytes self.now offset };

    /// Makes the byte at an offset `value`, of a slot that is ready, or of a header that may be written.
    fn set(&mut self, offset: u32, value: u8)
        requires within { offset < all_slots_size }
        requires header { has_header self.old (offset / slot_size) ≡ true }
        requires content { content_offset ≤ offset % slot_size → is_ready self.old (offset / slot_size) ≡ true }
        requires beyond { content_offset ≤ offset % slot_size → content_offset + spared self.old (offset / slot_size) ≤ offset % slot_size }
        ensures bytes { (a : ℕ) → bytes self.new a ≡ (if a == offset then value else bytes self.old a) }
        ensures kept { keeps self.old self.new };

    /// Copies the bytes from an offset on to all of `out`. They stand in one page of 4,096 bytes.
    fn read_run(&self, offset: u32, out: &mut [u8])
        requires within { offset < all_slots_size }
        requires page { offset % content_offset + length out.old ≤ content_offset }
        ensures { out.new ≡ bytes_from (bytes self.now) offset (length out.old) }
    {
        for (i, b) in out.iter_mut().enumerate() {
            *b = self.byte(offset + i as u32);
        }
    }

    /// So many bytes from an offset on, where they are kept as a slice; none: they are copied by `read_run`. They stand in one page of 4,096 bytes.
    fn lent_run(&self, offset: u32, count: u32) -> Option<&[u8]>
        requires within { offset < all_slots_size }
        requires page { offset % content_offset + count ≤ content_offset }
        ensures { IfSome result (λ run. run.now ≡ bytes_from (bytes self.now) offset count) }
    {
        None
    }

    /// Makes the bytes from an offset on those of `run`, one or more, of a slot that is ready, or of a header that may be written. They stand in
    /// one page of 4,096 bytes.
    fn write_run(&mut self, offset: u32, run: &[u8])
        requires within { offset < all_slots_size }
        requires some { 0 < length run.now }
        requires page { offset % content_offset + length run.now ≤ content_offset }
        requires header { has_header self.old (offset / slot_size) ≡ true }
        requires content { content_offset ≤ offset % slot_size → is_ready self.old (offset / slot_size) ≡ true }
        requires beyond { content_offset ≤ offset % slot_size → content_offset + spared self.old (offset / slot_size) ≤ offset % slot_size }
        ensures bytes { (a : ℕ) → bytes self.new a ≡ with_bytes (bytes self.old) offset run.now a }
        ensures kept { keeps self.old self.new }
    {
        for (i, b) in run.iter().enumerate() {
            self.set(offset + i as u32, *b);
        }
    }

    /// How many bytes of a slot's content, from its start on, are not written.
    fn spare(&self, slot: u32) -> u32
        requires { slot < slot_count }
        ensures { result ≡ spared self.now slot };

    /// Whether a slot, below 64, may be written.
    fn ready(&self, slot: u32) -> bool
        requires { slot < slot_count }
        ensures { result ≡ is_ready self.now slot };

    ghost small: { (s : Self) (a : ℕ) → bytes s a < 256 };

    ghost keeps_itself: { (s : Self) → keeps s s };

    ghost keeps_on: { (s t u : Self) → keeps s t → keeps t u → keeps s u };

    // no slot or header is less ready after a write
    ghost ready_on: { (s t : Self) (k : ℕ) → keeps s t → is_ready s k ≡ true → is_ready t k ≡ true };

    ghost header_on: { (s t : Self) (k : ℕ) → keeps s t → has_header s k ≡ true → has_header t k ≡ true };

    // as many bytes of a slot are not written after a write, and they stay
    ghost spared_on: { (s t : Self) (k : ℕ) → keeps s t → spared t k ≡ spared s k };

    ghost spared_stays: { (s t : Self) (k i : ℕ) → keeps s t → i < spared s k → bytes t (slot_start k + content_offset + i) ≡ bytes s (slot_start k + content_offset + i) };

    // the header of a slot that is ready may be written
    ghost header_ready: { (s : Self) (k : ℕ) → is_ready s k ≡ true → has_header s k ≡ true };
}
