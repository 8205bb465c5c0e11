// The sender's energy keeping (document 02, No. 10; document 003, "Energy management"): a full sender hands out as many bytes as its
// energy pays for, then waits until it is full again.
#![tactic(auto)]

ghost use Rattle.std.specs.Prelude.{◌≡◌, false, length, IfOk};
ghost use Rattle.basics.specs.Refusal.{number_in};
ghost use Rattle.sender.specs.Energy.{is_waiting, settings_refused, energy_left, energy_after_portion, energy_after_wait};
ghost use Rattle.sender.specs.Queue.{unsent_count, portion_size, is_idle};
ghost use Rattle.sender.specs.Answer.{settings_refusal, sent_as, start_of, enqueue_of, queue_after, transmit_of, output_after, wait_of};

use basics::Refusal;

// How much energy there is at most, what a byte costs of it, and what a microsecond of waiting gives back. A largest energy of 0
// switches energy keeping off.
#[repr(C)]
#[derive(Clone, Copy, Default)]
pub struct Settings {
    pub max_energy: u32,
    pub loss_per_byte: u32,
    pub gain_per_microsecond: u32,
}

// The state between calls. The bytes stand in the queue that is lent with it: `queued` of them were queued, and the first `sent` of
// these were handed out. It waits exactly while `energy` is below the largest.
#[repr(C)]
#[derive(Clone, Copy, Default)]
pub struct Sender {
    pub settings: Settings,
    pub energy: u32,
    pub queued: usize,
    pub sent: usize,
}

// How many bytes were handed out, and the sender afterwards or, refused, as it was; of a refused `start` all zero.
#[repr(C)]
#[derive(Clone, Copy)]
pub struct Sent {
    pub number: u32,
    pub length: usize,
    pub sender: Sender,
}

impl Settings {
    // The settings can be used: energy keeping is off, or a loss and a gain are given, and a full sender pays for a byte.
    #[tactic(auto, unfolding(crate::specs::Answer::settings_refusal, crate::specs::Energy::settings_refused, basics::specs::Choice::choose))]
    fn check(self) -> Result<(), Refusal>
        ensures { number_in result ≡ settings_refusal self }
    {
        if self.max_energy != 0
            && (self.loss_per_byte == 0
                || self.gain_per_microsecond == 0
                || self.max_energy < self.loss_per_byte)
        {
            return Err(Refusal::WrongSettings);
        }
        Ok(())
    }

    // The energy after a portion.
    fn energy_after_portion(self, size: usize) -> u32
        ensures { result ≡ energy_after_portion self size }
    {
        let lost = (size as u64).saturating_mul(self.loss_per_byte as u64);
        (self.max_energy as u64).saturating_sub(lost) as u32
    }
}

impl Sender {
    // It waits until it is full.
    fn is_waiting(self) -> bool
        ensures { result ≡ is_waiting self }
    {
        self.energy < self.settings.max_energy
    }

    // How many queued bytes are still to go. Any state may be handed in: the queue has 772 bytes, whatever `queued` says.
    #[tactic(auto, unfolding(crate::specs::Queue::unsent_count))]
    fn unsent_count(self) -> usize
        ensures { result ≡ unsent_count self }
    {
        self.queued.min(772).saturating_sub(self.sent)
    }

    // How many bytes go at once: none while the sender waits.
    #[tactic(auto, unfolding(crate::specs::Queue::portion_size, crate::specs::Energy::settings_refused, basics::specs::Choice::choose))]
    fn portion_size(self) -> usize
        requires { settings_refused self.settings ≡ false }
        ensures { result ≡ portion_size self }
    {
        if self.is_waiting() {
            return 0;
        }
        let settings = self.settings;
        let count = self.unsent_count();
        if settings.max_energy == 0 {
            return count;
        }
        count.min((settings.max_energy / settings.loss_per_byte) as usize)
    }

    // The energy after some time.
    #[tactic(auto, unfolding(crate::specs::Energy::energy_after_wait, basics::specs::Choice::choose))]
    fn energy_after_wait(self, microseconds: u64) -> u32
        ensures { result ≡ energy_after_wait self microseconds }
    {
        if !self.is_waiting() {
            return self.energy;
        }
        let gained = microseconds.saturating_mul(self.settings.gain_per_microsecond as u64);
        (self.energy as u64)
            .saturating_add(gained)
            .min(self.settings.max_energy as u64) as u32
    }
}

// The answer to a call: how many bytes were handed out, and the sender afterwards or, refused, as it was.
fn answer(outcome: Result<(usize, Sender), Refusal>, before: Sender) -> Sent
    ensures { result ≡ sent_as outcome before }
{
    match outcome {
        Ok((length, sender)) => Sent {
            number: 0,
            length,
            sender,
        },
        Err(refusal) => Sent {
            number: refusal.number(),
            length: 0,
            sender: before,
        },
    }
}

#[tactic(auto, unfolding(crate::specs::Answer::settings_refusal, basics::specs::Choice::choose))]
fn started(settings: Settings) -> Result<(usize, Sender), Refusal>
    ensures refused { number_in result ≡ settings_refusal settings }
    ensures accepted { IfOk result (λ outcome. outcome ≡ (0, Rattle.sender.specs.Answer.started settings)) }
{
    settings.check()?;
    Ok((
        0,
        Sender {
            settings,
            energy: settings.max_energy,
            ..Sender::default()
        },
    ))
}

// A full sender with nothing queued. Refused, it is all zero, which is a sender with energy keeping switched off.
#[tactic(auto, unfolding(crate::specs::Answer::settings_refusal, basics::specs::Choice::choose))]
pub fn start(settings: Settings) -> Sent
    ensures { result ≡ start_of settings }
{
    answer(started(settings), Sender::default())
}

// The energy left.
pub fn energy(sender: Sender) -> u32
    ensures { result ≡ energy_left sender }
{
    sender.energy.min(sender.settings.max_energy)
}

// Nothing is to go, and no energy is waited for.
pub fn is_idle(sender: Sender) -> bool
    ensures { result ≡ is_idle sender }
{
    !sender.is_waiting() && sender.unsent_count() == 0
}

#[tactic(auto, unfolding(crate::specs::Answer::enqueue_refusal, crate::specs::Answer::settings_refusal, basics::specs::Choice::choose))]
fn enqueued(sender: Sender, queue: &mut [u8; 772], bytes: &[u8]) -> Result<(usize, Sender), Refusal>
    ensures value { sent_as result sender ≡ enqueue_of sender bytes.now }
    ensures queue_after { queue.new ≡ queue_after sender bytes.now queue.old }
{
    sender.settings.check()?;
    if !is_idle(sender) {
        return Err(Refusal::SenderBusy);
    }
    if bytes.len() > queue.len() {
        return Err(Refusal::QueueTooLong);
    }
    basics::copy(bytes, &mut queue[..]);
    Ok((
        0,
        Sender {
            queued: bytes.len(),
            sent: 0,
            ..sender
        },
    ))
}

// Queues bytes to be sent. A refusal leaves the sender and every byte of `queue` as they were.
pub fn enqueue(sender: Sender, queue: &mut [u8; 772], bytes: &[u8]) -> Sent
    ensures value { result ≡ enqueue_of sender bytes.now }
    ensures queue_after { queue.new ≡ queue_after sender bytes.now queue.old }
{
    answer(enqueued(sender, queue, bytes), sender)
}

#[tactic(auto, unfolding(crate::specs::Answer::transmit_refusal, crate::specs::Answer::transmitted, crate::specs::Answer::settings_refusal, basics::specs::Choice::choose))]
fn transmitted(
    sender: Sender,
    queue: &[u8; 772],
    out: &mut [u8],
) -> Result<(usize, Sender), Refusal>
    ensures value { sent_as result sender ≡ transmit_of sender (length out.old) }
    ensures out_after { out.new ≡ output_after sender queue.now out.old }
{
    sender.settings.check()?;
    let size = sender.portion_size();
    if out.len() < size {
        return Err(Refusal::OutputTooShort);
    }
    if size == 0 {
        return Ok((0, sender));
    }
    let end = sender.sent + size;
    basics::copy(&queue[sender.sent..end], out);
    let energy = sender.settings.energy_after_portion(size);
    Ok((
        size,
        Sender {
            energy,
            sent: end,
            ..sender
        },
    ))
}

// Hands out the next portion to the start of `out`, if the sender is full and bytes are to go. A refusal leaves the sender and every
// byte of `out` as they were.
pub fn transmit(sender: Sender, queue: &[u8; 772], out: &mut [u8]) -> Sent
    ensures value { result ≡ transmit_of sender (length out.old) }
    ensures out_after { out.new ≡ output_after sender queue.now out.old }
{
    answer(transmitted(sender, queue, out), sender)
}

#[tactic(auto, unfolding(crate::specs::Answer::settings_refusal, basics::specs::Choice::choose))]
fn waited(sender: Sender, microseconds: u64) -> Result<(usize, Sender), Refusal>
    ensures { sent_as result sender ≡ wait_of sender microseconds }
{
    sender.settings.check()?;
    let energy = sender.energy_after_wait(microseconds);
    Ok((0, Sender { energy, ..sender }))
}

// Tells the sender that time has passed. It counts only while the sender waits.
pub fn wait(sender: Sender, microseconds: u64) -> Sent
    ensures { result ≡ wait_of sender microseconds }
{
    answer(waited(sender, microseconds), sender)
}
