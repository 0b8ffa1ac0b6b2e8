// What a frame tells of itself.
ghost use Rattle.std.specs.Prelude.{◌≡◌};

use super::Frame;
use code::Code;

impl Frame {
    // The code.
    pub fn code(&self) -> Code
        ensures { result ≡ self.now.code }
    {
        self.code
    }

    // How many symbols were taken: as many bits a decode writes.
    pub fn steps(&self) -> usize
        ensures { result ≡ self.now.steps }
    {
        self.steps
    }

    // How many rows were written to the store.
    pub fn rows(&self) -> usize
        ensures { result ≡ self.now.metrics.rows }
    {
        self.metrics.rows()
    }
}
