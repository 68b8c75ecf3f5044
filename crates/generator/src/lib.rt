// Draws out of two 64-bit words. The definitions are in specs/Draws.
#![tactic(auto)]

ghost use Rattle.std.specs.Prelude.{◌≡◌};
ghost use Rattle.generator.specs.Draws.{xorshift, step, draw_of};

// The word that begins as the start number, and the counter.
#[derive(Clone, Copy)]
pub struct GeneratorState {
    pub word: u64,
    pub counter: u64,
}

// What is shifted out on the left is lost.
fn xorshift(x: u64) -> u64
    ensures { result ≡ xorshift x }
{
    let a = x ^ (x << 13);
    let b = a ^ (a >> 7);
    b ^ (b << 17)
}

impl GeneratorState {
    // Both words one draw on.
    #[tactic(auto, unfolding(crate::specs::Draws::step))]
    pub fn next(self) -> GeneratorState
        ensures { result ≡ step self }
    {
        GeneratorState {
            word: xorshift(self.word),
            counter: self.counter.wrapping_add(362_437),
        }
    }

    // The draw of both words as they stand.
    #[tactic(auto, unfolding(crate::specs::Draws::draw_of))]
    pub fn draw(self) -> u64
        ensures { result ≡ draw_of self }
    {
        self.word.wrapping_add(self.counter)
    }

    // Both words go one draw on, and the draw is their sum.
    pub fn next_draw(&mut self) -> u64
        ensures { (self.new ≡ step self.old)
            × (result ≡ draw_of self.new) }
    {
        *self = self.next();
        self.draw()
    }
}
