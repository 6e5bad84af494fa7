// Plays the example, scene after scene.
use crate::scenes::{Post, SCENES, Scene};
use crate::words::{DIVERTER, cause, input, party, posted, rule};
use controller::controller::Controller;
use frames::FrameKind;
use frames::rights::Rights;
use oracles::walking::Walking;
use package::contents::Contents;
use rules::Trail;

// A controller with the rights kind and the walking oracle.
pub type Hall = Controller<(Rights, Walking)>;

fn tell_post(rt: &impl Print, hall: &mut Hall, post: Post) -> anyhow::Result<()> {
    let who = party(post.party);
    let what = input(post.place);
    let value = post.value;
    let became = posted(hall.post(post.party, post.place, value));
    println!(rt; "   {who} posts {value} as {what}: {became}")?;
    Ok(())
}

// A refused drive, and the parties that lack the right for which it was refused.
fn tell_trail(rt: &impl Print, contents: &Contents, trail: Trail) -> anyhow::Result<()> {
    let who = rule(trail.procedure);
    let offset = trail.offset;
    let why = cause(trail.cause);
    let right = trail.right;
    println!(rt; "   drive refused: {who}, at offset {offset}: {why} right {right}")?;
    for (number, frame) in (0u8..).zip(contents.parties.iter()) {
        if !Rights::trusted(*frame, right) {
            let lacking = party(number);
            println!(rt; "   without right {right} is {lacking}")?;
        }
    }
    Ok(())
}

// What the diverter shows, after it had been driven so many times.
fn tell_diverter(rt: &impl Print, hall: &Hall, before: u32) -> anyhow::Result<()> {
    let (command, count) = hall.show(DIVERTER).unwrap_or((0, 0));
    if count > before {
        println!(rt; "   drive accepted: the diverter goes to {command}")?;
    }
    println!(rt; "   the diverter shows {command}, drives accepted so far: {count}")?;
    Ok(())
}

fn tell_cycle(rt: &impl Print, contents: &Contents, hall: &mut Hall) -> anyhow::Result<()> {
    let (_, before) = hall.show(DIVERTER).unwrap_or((0, 0));
    let (steps, refused) = hall.cycle();
    println!(rt; "   a cycle of {steps} steps, drives refused: {refused}")?;
    if let Some(trail) = hall.trail() {
        tell_trail(rt, contents, trail)?;
    }
    tell_diverter(rt, hall, before)
}

fn play_scene(
    rt: &impl Print,
    contents: &Contents,
    hall: &mut Hall,
    scene: Scene,
) -> anyhow::Result<()> {
    let title = scene.title;
    println!(rt; "{title}")?;
    for post in scene.posts {
        tell_post(rt, hall, post)?;
    }
    tell_cycle(rt, contents, hall)
}

// Plays every scene.
pub fn play(rt: &impl Print, contents: &Contents, hall: &mut Hall) -> anyhow::Result<()> {
    for scene in SCENES {
        play_scene(rt, contents, hall, scene)?;
    }
    Ok(())
}
