// Laying bytes into a buffer. What passes its end is counted and left out, so that a first round with no room gives the length.
ghost use Rattle.std.specs.Prelude.{◌≡◌, ◌+◌, ◌^◌, ◌<◌, ◌≤◌, List, [], ◌∷◌, length, decimal};
ghost use Rattle.casewriter.specs.Laid.{laid, Put};

// A buffer, and the place where the next byte comes.
// How far the pen may stand is asked by each method: a struct that holds a `&mut` has no ghost field to carry it, and it lies with the caller how
// much is still to come.
#[derive(Drop)]
pub(crate) struct Pen<'a> {
    pub(crate) buffer: &'a mut [u8],
    pub(crate) at: usize,
}

impl<'a> Pen<'a> {
    pub(crate) fn put(&mut self, byte: u8)
        requires { self.old.at < 2 ^ 51 }
        ensures same { self.new.buffer.ghost_name ≡ self.old.buffer.ghost_name }
        ensures put { Put self.old.at (byte ∷ []) self.old.buffer.now self.new.buffer.now self.new.at }
        ensures within { self.new.at ≤ self.old.at + 1 }
    {
        if self.at < self.buffer.len() {
            self.buffer[self.at] = byte;
        }
        self.at += 1;
    }

    pub(crate) fn put_word(&mut self, word: &[u8])
        requires room { self.old.at < 2 ^ 50 }
        requires short { length word.now ≤ 10 }
        ensures same { self.new.buffer.ghost_name ≡ self.old.buffer.ghost_name }
        ensures put { Put self.old.at word.now self.old.buffer.now self.new.buffer.now self.new.at }
        ensures within { self.new.at ≤ self.old.at + 10 }
    {
        for byte in word {
            self.put(*byte);
        }
    }

    // The decimal digits of a number.
    pub(crate) fn put_number(&mut self, n: u32)
        requires { self.old.at < 2 ^ 50 }
        ensures same { self.new.buffer.ghost_name ≡ self.old.buffer.ghost_name }
        ensures put { Put self.old.at (decimal n) self.old.buffer.now self.new.buffer.now self.new.at }
        ensures within { self.new.at ≤ self.old.at + 10 }
    {
        if n >= 10 {
            self.put_number(n / 10);
        }
        self.put(b'0' + (n % 10) as u8);
    }

    // A space and a number.
    pub(crate) fn put_field(&mut self, n: u32)
        requires { self.old.at < 2 ^ 49 }
        ensures same { self.new.buffer.ghost_name ≡ self.old.buffer.ghost_name }
        ensures put { Put self.old.at (32 ∷ decimal n) self.old.buffer.now self.new.buffer.now self.new.at }
        ensures within { self.new.at ≤ self.old.at + 11 }
    {
        self.put(b' ');
        self.put_number(n);
    }
}
