// The search: placements are tried in the order of the images, page by page, an open page before one new page, each placement costing one step.
ghost use Rattle.std.specs.Prelude.{◌≡◌, ◌<◌, ◌≤◌, take};
ghost use Rattle.pages.specs.State.{empty, started};
ghost use Rattle.pages.specs.Search.{better, on_page, visits};
ghost use Rattle.pages.specs.Searched.{left_from, Searched};

use crate::IMAGES;
use crate::order::Image;
use crate::state::{Search, State};

impl Search {
    // Each image on the first page with room.
    fn first_fit(images: &[Image; IMAGES], count: usize) -> State
        requires { count ≤ 32 }
        ensures { result ≡ started (take count images.now) empty }
    {
        let mut state = State::empty();
        for i in 0..count {
            let image = images[i];
            let p = state.first_room(image.size);
            state.put(image, p);
        }
        state
    }

    // Nothing is placed, and the start is the best.
    pub(crate) fn new(images: [Image; IMAGES], count: usize) -> Search
        requires { count ≤ 32 }
        ensures { (result.images ≡ images) × (result.count ≡ count) × (result.placed ≡ empty) × (result.best ≡ started (take count images) empty) }
    {
        Search {
            images,
            count,
            placed: State::empty(),
            best: Search::first_fit(&images, count),
        }
    }

    // A packing with fewer pages is the best.
    fn note(&mut self)
        ensures { self.new ≡ record self.old { best = better self.old.best self.old.placed } }
    {
        if self.placed.opened < self.best.opened {
            self.best = self.placed;
        }
    }

    // The image at place `i` on page `p`, and those behind it, in at most `budget` steps; all are taken back. The steps taken.
    #[cycle(search)]
    fn on_page(&mut self, i: usize, p: u8, budget: u64) -> u64
        requires { (i < self.old.count) × (self.old.count ≤ 32) × (p ≤ self.old.placed.opened) × (self.old.placed.opened ≤ i) × (0 < budget) }
        ensures { Searched self.old (on_page (left_from i self.old) p self.old.placed) budget self.new result }
    {
        let image = self.images[i];
        let there = self.placed.there(image, p);
        self.placed.put(image, p);
        let mut steps = 1;
        if i + 1 == self.count {
            self.note();
        } else {
            steps += self.search(i + 1, budget - 1);
        }
        self.placed.put_back(image, p, there);
        steps
    }

    // The images from place `i` on, page by page, in at most `budget` steps. The steps taken.
    #[cycle(search)]
    pub(crate) fn search(&mut self, i: usize, budget: u64) -> u64
        requires { (i < self.old.count) × (self.old.count ≤ 32) × (self.old.placed.opened ≤ i) }
        ensures { Searched self.old (visits (left_from i self.old) self.old.placed) budget self.new result }
    {
        let size = self.images[i].size;
        let mut steps = 0;
        for p in 0..self.placed.opened + 1 {
            if steps < budget && size <= self.placed.free[usize::from(p)] {
                steps += self.on_page(i, p, budget - steps);
            }
        }
        steps
    }
}
