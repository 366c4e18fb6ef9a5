//! The page that `show` writes, but for its data: `tools/page.py` takes it from `page/show.html`.

/// What comes before the data.
pub(crate) const BEFORE: &str = "\
<!doctype html>
<html lang=\"en\">
<head>
<meta charset=\"utf-8\">
<meta name=\"viewport\" content=\"width=device-width, initial-scale=1\">
<title>An exchange, step by step</title>
<style>
  :root {
    color-scheme: light dark; overflow-y: scroll;
    --ink: #1d2733; --soft: #566270; --line: #cfd6df; --paper: #fff; --ground: #f3f5f8; --now: #fff3cf; --bad: #a3201a;
    --claimed: #f6c65b; --written: #e5862a; --published: #2f6fc4; --on-published: #fff; --mark: #7a5b00;
  }
  @media (prefers-color-scheme: dark) {
    :root {
      --ink: #e6ebf1; --soft: #a5b0bd; --line: #3b4653; --paper: #1b222b; --ground: #12171d; --now: #3b3211; --bad: #ff8d85;
      --claimed: #8a6a14; --written: #a85f16; --published: #6aa5f2; --on-published: #0d131a; --mark: #f6c65b;
    }
  }
  * { box-sizing: border-box; } [hidden] { display: none !important; }
  body { margin: 0; font: 14px/1.45 system-ui, sans-serif; color: var(--ink); background: var(--ground); }
  header { position: sticky; top: 0; z-index: 1; padding: 8px 14px; background: var(--paper); border-bottom: 1px solid var(--line); }
  header, .row { display: flex; gap: 8px 12px; align-items: center; flex-wrap: wrap; }
  h1 { font-size: 16px; margin: 0; } h2 { font-size: 14px; margin: 0 0 4px; }
  button { font: inherit; padding: 3px 10px; border: 1px solid var(--line); border-radius: 5px; background: var(--ground); color: inherit; }
  button:disabled { opacity: .45; } :focus-visible { outline: 3px solid var(--published); outline-offset: 1px; }
  #at { flex: 1 1 140px; min-width: 100px; }
  #body { display: grid; grid-template-columns: minmax(300px, 34%) 1fr; align-items: start; }
  #file {
    position: sticky; top: 46px; max-height: calc(100vh - 46px); display: flex; flex-direction: column;
    background: var(--paper); border-right: 1px solid var(--line);
  }
  #lines { margin: 0; padding: 6px 0; list-style: none; overflow: auto; }
  #lines button {
    display: grid; grid-template-columns: 3.4em minmax(0, 5fr) minmax(0, 4fr); gap: 8px; width: 100%; padding: 1px 10px 1px 2px; text-align: left;
    border: 0; border-left: 5px solid transparent; border-radius: 0; background: none; font: 13px/1.5 ui-monospace, monospace;
  }
  #lines li { content-visibility: auto; contain-intrinsic-size: auto 22px; } #lines span { overflow-wrap: anywhere; }
  #lines span:first-child { color: var(--soft); text-align: right; }
  #lines [aria-current] { background: var(--now); border-left-color: var(--mark); font-weight: 600; }
  .bad { color: var(--bad); }
  main { padding: 12px 16px; display: grid; gap: 12px; min-width: 0; }
  .card { background: var(--paper); border: 1px solid var(--line); border-radius: 8px; padding: 8px 12px; min-width: 0; overflow-x: auto; }
  #said b { font: 600 15px/1.4 ui-monospace, monospace; overflow-wrap: anywhere; }
  #said p { margin: 2px 0 0; overflow-wrap: anywhere; }
  code { font: 13px/1 ui-monospace, monospace; padding: 0 3px; border: 1px solid var(--line); border-radius: 4px; }
  .name code { padding: 0; border: 0; }
  #graph { overflow-x: auto; } #both { display: grid; grid-template-columns: repeat(auto-fit, minmax(min(100%, 330px), 1fr)); gap: 12px; align-items: start; }
  #both > div { display: grid; gap: 12px; min-width: 0; }
  svg { display: block; width: 100%; height: auto; } svg text { fill: var(--ink); }
  .along { font-family: ui-monospace, monospace; font-weight: 600; }
  .along text:first-of-type { stroke: var(--paper); stroke-width: 5; stroke-linejoin: round; }
  table { border-collapse: collapse; width: 100%; }
  th, td { padding: 3px 6px 3px 0; text-align: left; vertical-align: top; border-top: 1px solid var(--line); }
  tr > :last-child { padding-right: 0; } tr:first-child > * { border-top: 0; } th { font-weight: 500; color: var(--soft); } td.n, th.n { text-align: right; }
  .name { overflow-wrap: anywhere; min-width: 5.5em; width: 6.4em; }
  .asked { width: 8.6em; padding-left: 8px; } #handlers p, #claims p { margin: 4px 0 0; } #part { margin: 8px 10px; }
  #key svg { display: inline-block; width: 18px; height: 14px; vertical-align: -2px; margin-right: 5px; }
  footer, .soft { color: var(--soft); } footer, #handlers table { font-size: 13px; }
  @media (max-width: 760px) {
    #body { display: block; }
    #file { position: static; max-height: none; border-right: 0; border-bottom: 1px solid var(--line); }
    main { padding: 10px; }
    /* Rows of one height, and a list of whole rows: none is cut at its edges. */
    #lines { padding: 0; max-height: 208px; max-height: round(down, 34vh, 26px); scroll-snap-type: y mandatory; }
    #lines li { scroll-snap-align: start; contain-intrinsic-size: auto 26px; }
    #lines button { display: flex; align-items: center; height: 26px; white-space: nowrap; }
    #lines span { overflow: hidden; text-overflow: ellipsis; }
    #lines span:first-child { flex: 0 0 3.4em; }
    #lines span:last-child { flex: 1 9999 auto; min-width: 9ch; }
    #lines span:last-child:not(:empty)::before { content: \"\\2192  \" / \"\"; }
  }
</style>
</head>
<body>
<header>
  <h1>An exchange, step by step</h1>
  <div class=\"row\" role=\"group\" aria-label=\"Steps\">
    <button id=\"first\" title=\"Home\" aria-label=\"first\">|&lt;</button>
    <button id=\"back\" title=\"Left arrow\" aria-label=\"back\">&lt; back</button>
    <button id=\"on\" title=\"Right arrow\" aria-label=\"on\">on &gt;</button>
    <button id=\"end\" title=\"End\" aria-label=\"last\">&gt;|</button>
  </div>
  <input id=\"at\" type=\"range\" min=\"0\" aria-label=\"Step\">
  <span id=\"where\"></span>
</header>
<div id=\"body\">
<section id=\"file\" aria-label=\"The file's records, with their replies\"><p id=\"part\" class=\"soft\" hidden></p><ol id=\"lines\"></ol></section>
<main>
  <section class=\"card\" id=\"said\" aria-live=\"polite\"></section>
  <div id=\"both\">
    <div>
      <figure class=\"card\" id=\"ring\" style=\"margin: 0\"></figure>
      <section class=\"card row\" id=\"key\" aria-label=\"Key\"></section>
    </div>
    <div>
      <section class=\"card\"><h2>Handlers</h2><div id=\"graph\" tabindex=\"0\" role=\"group\" aria-label=\"Who follows whom\"></div>
        <p class=\"soft\" style=\"margin: 4px 0\">Gating: there is more, but not yet. Idle: there is nothing new. A slot is free again once each handler in a thick box has completed its event.</p>
        <div id=\"handlers\"></div></section>
      <section class=\"card\"><h2>Claims</h2><div id=\"claims\"></div></section>
    </div>
  </div>
  <footer>
    Each reply is that of <code>disruptor drive</code>, and each number the state of the proved core after that record. Keys: the arrows, Home and End.
    <code>#step=N</code> at the end of the page's address opens record N.
  </footer>
</main>
</div>
<script type=\"application/json\" id=\"data\">
";

/// What comes after it.
pub(crate) const AFTER: &str = "
</script>
<script>
\"use strict\";
const data = JSON.parse(document.getElementById(\"data\").textContent);
const records = data.records.slice(0, -1), end = data.records.at(-1);
const exchange = records.find((it) => it.exchange)?.exchange;
const $ = (id) => document.getElementById(id);
const COLORS = [\"#7b4fc9\", \"#1b9e77\", \"#d1495b\", \"#0b7fab\", \"#a86b00\", \"#5a7d2a\", \"#c2489a\", \"#3f51b5\"];
const MOST_DRAWN = 64;
const REFUSED = {
  1: \"\", 2: \"The exchange is halted, for good. What is claimed may still be published.\",
  3: \"A claim is of at least one sequence and at most the size, a publication ends where it begins or later, and a poll has room.\",
  4: \"The claim goes past the limit.\", 5: \"Nobody claimed this sequence, or another producer did.\",
  6: \"This sequence is published already, and may have been read.\", 7: \"A sequence of the stretch has no event yet.\",
  8: \"The only producer publishes in order, and has not published an earlier sequence.\", 9: \"The handler has not taken so many events.\",
  10: \"The handler has completed more already.\", 11: \"The number is no producer's; they count from 0.\", 12: \"The name is no handler's.\",
  13: \"The handler is retired, for good.\", 14: \"A handler that is not retired follows the one to retire.\", 15: \"No other handler is left.\",
};
const POLL = { retired: \"refused: it is retired\", drained: \"drained\", gating: \"gating\", idle: \"idle\" };
let step = 0;

const esc = (text) => String(text).replace(/[&<>\"]/g, (c) => `&#${c.charCodeAt(0)};`);
const plain = (text) => text.replace(/\\n$/, \"\").replaceAll(\"\\n\", \"\\\\x0a\");
const count = (n, one, many = `${one}s`) => `${n} ${n === 1 ? one : many}`;
const list = (words) => (words.length < 2 ? words.join(\"\") : `${words.slice(0, -1).join(\", \")} and ${words.at(-1)}`);
const first = (words) => (words.length > 16 ? `${words.slice(0, 16).join(\" \")} \\u2026` : words.join(\" \"));
const span = (lo, hi) => (lo === hi ? `${lo}` : hi === lo + 1 ? `${lo} and ${hi}` : `${lo} to ${hi}`);
const several = (lo, hi) => (lo === hi ? \"sequence\" : \"sequences\");
const name = (h) => exchange.handlers[h].name;
// A name cut in its middle: names often differ at their ends.
const short = (text, most = 14) => (text.length > most ? `${text.slice(0, most - 6)}\\u2026${text.slice(-5)}` : text);
const code = (text) => `<code>${esc(text)}</code>`;
const those = (all) => `${all.length === 1 ? \"handler\" : \"handlers\"} ${list(all.map((h) => code(name(h))))}`;
const begin = (text) => text.slice(0, 1).toUpperCase() + text.slice(1);

// The stretches of the last round, each with its last sequence, and the event of a sequence.
const stretches = (r) => r.round.map(([lo, producer, stage], i) => ({ lo, hi: (r.round[i + 1]?.[0] ?? r.next) - 1, producer, stage }));
const events = (r) => (r.read ??= new Map(r.events.split(\" \").filter(Boolean).map((it) => [Number(it.split(\"=\")[0]), it.split(\"=\")[1]])));
const stretchOf = (all, s) => all.find((it) => it.lo <= s && s <= it.hi);
// The least count that holders completed: what is below it is free again.
const floor = (r) => r.handlers.find((h) => h.holds)?.completed ?? 0;
const holders = (r) => r.handlers.flatMap((h, k) => (h.holds ? [k] : []));
function whyWaits(r, h) {
  const it = r.handlers[h], ups = exchange.handlers[h].upstreams, slow = ups.filter((u) => r.handlers[u].completed <= it.taken);
  const done = slow.map((u) => String(r.handlers[u].completed)), alike = new Set(done).size === 1;
  if (!slow.length) return whyBehind(r);
  const came = alike && done[0] === \"0\" ? \"none of the events\" : `only those below ${alike ? done[0] : list(done)}`;
  return joined([`${begin(those([h]))} follows ${those(slow)}, which completed ${came}.`, ...slow.map((u) => whySlow(r, u))]);
}
const joined = (said) => [...new Set(said)].filter(Boolean).join(\" \");
// What a handler that others wait for has to do next, or what it waits for itself.
function whySlow(r, h) {
  const it = r.handlers[h], taken = it.taken - it.completed;
  if (taken) return `${begin(those([h]))} took ${span(it.completed, it.taken - 1)}, and has still to complete ${taken === 1 ? \"it\" : \"them\"}.`;
  return it.poll === \"batch\" ? `${begin(those([h]))} may take ${next(it)} now.` : it.poll === \"gating\" ? whyWaits(r, h) : \"\";
}
function whyBehind(r) {
  const all = stretches(r), gap = stretchOf(all, r.front), later = all.filter((s) => s.stage === \"published\" && s.lo > r.front);
  if (!gap) return \"\";
  const behind = later.length ? ` So ${list(later.slice(0, 3).map((s) => span(s.lo, s.hi)))}, though published, must wait: events are handed out in order.` : \"\";
  return `Producer ${gap.producer} has ${gap.stage} sequence ${r.front}, and ${gap.stage === \"written\" ? \"not published\" : \"neither written nor published\"} it yet.${behind}`;
}
// What handlers may take now.
const next = (h) => span(h.taken, h.taken + h.ready - 1);
function whoMayTake(r, isMeant = () => true) {
  const groups = new Map();
  r.handlers.forEach((h, k) => { if (h.poll === \"batch\" && isMeant(k)) groups.set(next(h), [...(groups.get(next(h)) ?? []), k]); });
  return [...groups].map(([what, all]) => `${begin(those(all))} may take ${what} now.`).join(\" \");
}
// The limit bounds the room where a claim of all of it would come to the limit; else the slots do.
function whyNoRoom(r) {
  if (r.halted) return \"The exchange is halted.\";
  const most = r.room ? `a claim may have at most ${r.room} now` : \"\";
  if (BigInt(r.next) + BigInt(r.room) === BigInt(exchange.limit)) return `${count(r.next, \"sequence\")} of at most ${exchange.limit} ${r.next === 1 ? \"is\" : \"are\"} claimed: ${most || \"none is left\"}.`;
  const all = `${begin(those(holders(r)))} completed ${floor(r)} of ${r.next} claimed events, and the ring has ${count(exchange.size, \"slot\")}: ${most || \"none is free\"}.`;
  return joined([all, ...holders(r).map((h) => whySlow(r, h))]);
}
// What those may take now that follow a handler, or why they wait.
function followers(r, h) {
  const follows = (k) => exchange.handlers[k].upstreams.includes(h);
  const waiting = r.handlers.map((it, k) => (it.poll === \"gating\" && follows(k) ? whyWaits(r, k) : \"\"));
  return joined([whoMayTake(r, follows), ...waiting]);
}
const SETUP = {
  ring: \"The ring: slots that are made once and used again.\", limit: \"How many sequences may be claimed in all.\", with: \"Handlers that wait for no other handler.\",
  then: \"Handlers that follow each one of the group before.\", after: \"The handlers that the next ones follow.\", edge: \"The second handler follows the first one.\",
};
// What the fields of a command mean.
function asks(r) {
  const [word, ...f] = r.text.split(\",\");
  const of = (n, one) => `${esc(n)} ${one}${Number(n) === 1 ? \"\" : \"s\"}`;
  const words = {
    ring: () => `${of(f[0], \"slot\")}, ${of(f[2] ?? \"1\", \"producer\")}.`,
    claim: () => `Claim by producer ${esc(f[0])} of ${of(f[1], \"sequence\")}.`,
    write: () => `Write by producer ${esc(f[0])} in sequence ${esc(f[1])}: the event ${esc(f.slice(2).join(\":\"))}.`,
    publish: () => `Publication by producer ${esc(f[0])} of ${f[1] === f[2] ? `sequence ${esc(f[1])}` : `sequences ${esc(f[1])} to ${esc(f[2])}`}.`,
    poll: () => `Poll by handler ${code(f[0])} for at most ${of(f[1], \"event\")}.`,
    complete: () => `Completion by handler ${code(f[0])} of the sequences below ${esc(f[1])}.`,
    retire: () => `Retirement of handler ${code(f[0])}.`,
  };
  return r.fault ? \"\" : words[word]?.() ?? \"\";
}
function explain(r) {
  if (r.fault) return `The file is at fault here, and the run ends: ${code(\"disruptor check drive FILE\")} tells what may stand here.`;
  const [word, ...f] = r.text.split(\",\"), reply = r.reply?.split(\" \").map((it) => it.trim());
  if (r.exchange) return `The exchange opens: ${count(exchange.size, \"slot\")}, ${count(exchange.producers, \"producer\")}, ${count(exchange.handlers.length, \"handler\")}.`;
  if (!reply) return SETUP[word] ?? \"\";
  const h = exchange.handlers.findIndex((it) => it.name === f[0]);
  const why = {
    claimed: () => `Producer ${f[0]} owns ${several(reply[1], reply[2])} ${span(Number(reply[1]), Number(reply[2]))} now, and ${reply[1] === reply[2] ? \"its slot\" : \"their slots\"}.`,
    written: () => \"The event is in its slot. Handlers see it once it is published, and all before it are.\",
    published: () => (r.front > Number(f[2]) ? `All below sequence ${r.front} are published. ${whoMayTake(r)}` : whyBehind(r)),
    batch: () => `${begin(those([h]))} took ${several(Number(reply[1]), r.handlers[h].taken - 1)} ${span(Number(reply[1]), r.handlers[h].taken - 1)}, in order: the events ${first(reply.slice(3))}. ${
      reply[2] === \"more\" ? `${code(\"more\")}: more was available than the poll had room for.` : `${code(\"end\")}: no more was available.`}`,
    gating: () => `There is more for ${those([h])}, but not yet. ${whyWaits(r, h)}`,
    idle: () => \"Nothing new is there.\",
    drained: () => `The exchange is halted, and ${those([h])} took all there will ever be.`,
    completed: () => `${r.handlers[h].gates ? (floor(r) ? `The slots of the sequences below ${floor(r)} are free again.` : \"\") : followers(r, h)}`,
    halting: () => \"No claim succeeds from now on. What is claimed may still be published, and is still handed out.\",
    retired: () => `${begin(those([h]))} takes no more events, and no claim waits for it, but for ${those(r.handlers.flatMap((it, k) => (it.gates ? [k] : [])))}.`,
    refused: () => `${reply[1] === \"1\" ? `No room. ${whyNoRoom(r)}` : REFUSED[reply[1]] ?? \"\"} Nothing has changed.`,
  };
  return why[reply[0]]?.() ?? \"\";
}
// Pictures. Each way of a slot has a pattern of its own, and a letter where there is room.
const PATTERNS = `<defs>
  <pattern id=\"claimed\" width=\"7\" height=\"7\" patternUnits=\"userSpaceOnUse\" patternTransform=\"rotate(45)\">
    <rect width=\"7\" height=\"7\" fill=\"var(--claimed)\"/><path d=\"M0 0V7\" stroke=\"var(--paper)\" stroke-width=\"3\"/></pattern>
  <pattern id=\"written\" width=\"7\" height=\"7\" patternUnits=\"userSpaceOnUse\">
    <rect width=\"7\" height=\"7\" fill=\"var(--written)\"/><circle cx=\"3.5\" cy=\"3.5\" r=\"1.6\" fill=\"var(--paper)\"/></pattern>
  <pattern id=\"again\" width=\"7\" height=\"7\" patternUnits=\"userSpaceOnUse\">
    <rect width=\"7\" height=\"7\" fill=\"var(--paper)\"/><path d=\"M0 3.5H7\" stroke=\"var(--published)\" stroke-width=\"1\"/></pattern></defs>`;
const LETTER = { free: \"\", again: \"\", claimed: \"c\", written: \"w\", published: \"p\" };
const WAYS = { free: \"never used\", claimed: \"claimed (c)\", written: \"written (w)\", published: \"published (p)\", again: \"free again\" };
const fill = (way) => (way === \"published\" ? \"var(--published)\" : way === \"free\" ? \"var(--ground)\" : `url(#${way})`);

// The stretches, parted where slots are free again.
function parts(r) {
  const low = floor(r);
  return stretches(r).flatMap((it) => {
    if (it.stage !== \"published\" || it.lo >= low) return [{ ...it, way: it.stage }];
    if (it.hi < low) return [{ ...it, way: \"again\" }];
    return [{ ...it, hi: low - 1, way: \"again\" }, { ...it, lo: low, way: \"published\" }];
  });
}
const published = (r) =>
  r.front ? [`all below #${r.front}`, \"are published\"] : r.round.some((it) => it[2] === \"published\") ? [\"#0 is not\", \"published yet\"] : [\"nothing is\", \"published yet\"];
// The last sequence that a free slot waits for, where there is room.
const lastFree = (r) => r.next + r.room - 1;
function tellRing(r) {
  const all = parts(r), told = events(r);
  const said = all.slice(0, 24).map((it) => {
    const values = it.hi - it.lo < 8 && it.way !== \"claimed\" ? Array.from({ length: it.hi - it.lo + 1 }, (_, k) => told.get(it.lo + k)).filter(Boolean) : [];
    return `${several(it.lo, it.hi)} ${span(it.lo, it.hi)} ${it.way === \"again\" ? \"completed by all, free again\" : `${it.way} by producer ${it.producer}`}${
      values.length ? ` (${values.join(\", \")})` : \"\"}`;
  });
  const more = all.length > 24 ? `, and ${all.length - 24} stretches more` : \"\";
  const free = r.room ? ` Free slots are for ${several(r.next, lastFree(r))} ${span(r.next, lastFree(r))}.` : \"\";
  return `A ring of ${count(exchange.size, \"slot\")}. ${said.length ? `${said.join(\"; \")}${more}.` : \"Nothing is claimed.\"} Next to be claimed: ${r.next}.${free} ${published(r).join(\" \")}.`;
}
function drawRing(r) {
  const size = exchange.size, many = r.handlers.length, lane = Math.min(18, 72 / many), R = 150, W = 62, C = R + 24 + many * lane;
  // How much of the picture is a pixel, so that no label is small on a narrow screen.
  const px = Math.max(1, (2 * C) / Math.max(1, $(\"ring\").clientWidth - 24));
  const turn = (n) => (((n % size) / size) * 2 - 0.5) * Math.PI, one = (2 * Math.PI) / size;
  const at = (a, radius) => `${(C + radius * Math.cos(a)).toFixed(2)} ${(C + radius * Math.sin(a)).toFixed(2)}`;
  const band = (a, b, r0, r1, how) => {
    if (b - a > 2 * Math.PI - 1e-4) return band(a, a + Math.PI, r0, r1, how) + band(a + Math.PI, a + 2 * Math.PI - 2e-4, r0, r1, how);
    const big = b - a > Math.PI ? 1 : 0;
    return `<path d=\"M${at(a, r0)}A${r0} ${r0} 0 ${big} 1 ${at(b, r0)}L${at(b, r1)}A${r1} ${r1} 0 ${big} 0 ${at(a, r1)}Z\" ${how}/>`;
  };
  const text = (a, radius, size, what, way, bold = false, below = 0) => {
    const [x, y] = at(a, radius).split(\" \");
    const ink = way === \"published\" ? \"var(--on-published)\" : \"var(--ink)\";
    const halo = way === \"published\" ? \"\" : ' stroke=\"var(--paper)\" stroke-width=\"3\" paint-order=\"stroke\"';
    return `<text x=\"${x}\" y=\"${(Number(y) + (size / 3 + below) * px).toFixed(2)}\" text-anchor=\"middle\" font-size=\"${(size * px).toFixed(2)}\" ${bold ? 'font-weight=\"600\"' : \"\"} style=\"fill:${ink}\"${halo}>${esc(what)}</text>`;
  };
  let out = PATTERNS;
  const all = parts(r), told = events(r), touched = touches(r);
  if (size > MOST_DRAWN) {
    out += `<circle cx=\"${C}\" cy=\"${C}\" r=\"${R - W / 2}\" fill=\"none\" stroke=\"var(--ground)\" stroke-width=\"${W}\"/>`;
    for (const it of all) {
      const a = turn(it.lo), b = a + (it.hi - it.lo + 1) * one;
      out += band(a, b, R - W, R, `fill=\"${fill(it.way)}\" stroke=\"var(--ink)\" stroke-width=\".6\"`);
      if (b - a > 0.5 && it.way !== \"again\") out += text((a + b) / 2, R - W / 2, 12, `${LETTER[it.way]} ${it.lo}\\u2013${it.hi}`, it.way);
    }
  } else {
    for (let k = 0; k < size; k++) {
      const s = r.next - 1 - ((((r.next - 1 - k) % size) + size) % size), it = s >= 0 ? stretchOf(all, s) : undefined, way = it?.way ?? \"free\";
      const a = turn(k), gap = Math.min(0.02, one / 8), mid = a + one / 2, now = s >= touched[0] && s <= touched[1];
      out += band(a + gap, a + one - gap, R - W, R, `fill=\"${fill(way)}\" stroke=\"var(--ink)\" stroke-width=\"${now ? 3 : 0.6}\"`);
      if (size <= 16) {
        const room = Math.min(W, one * (R - W / 2)), letters = Math.floor(room / (7.6 * px)), free = !it || way === \"again\", value = free ? undefined : told.get(s);
        const label = free ? `for #${s + size}` : `#${s} ${LETTER[way]}`, isLong = label.length > letters;
        const lines = free
          ? (s + size > lastFree(r) ? [] : isLong ? label.split(\" \") : [label])
          : [isLong ? `#${s}` : label, exchange.producers > 1 ? `by ${it.producer}` : \"\", value?.length > letters ? `${value.slice(0, letters - 1)}\\u2026` : value].filter(Boolean);
        while (lines.length > 1 && lines.length * 13 * px > room) lines.splice(free ? 0 : 1, 1);
        lines.forEach((line, i) => { out += text(mid, R - W / 2, 12, line, way, i > 0 && line === lines.at(-1) && value !== undefined, (i - (lines.length - 1) / 2) * 13.5); });
      } else if (it) out += text(mid, R - W / 2, 12, LETTER[way], way);
    }
  }
  if (size > 16 && r.room * one > 0.5) out += text(turn(r.next) + (r.room * one) / 2, R - W / 2, 12, `for ${r.next}\\u2013${lastFree(r)}`, \"free\");
  // A name along its track, upright, from an angle on, in letters of one width; first in the paper's color, wider.
  const along = (k, radius, a, what) => {
    const b = a + (what.length * 10 * px) / radius, down = Math.sin((a + b) / 2) > 0, r0 = radius + (down ? 4 : -4) * px;
    const line = `<text font-size=\"${12 * px}\" text-anchor=\"${down ? \"end\" : \"start\"}\"><textPath href=\"#along${k}\" startOffset=\"${down ? 100 : 0}%\">${esc(what)}</textPath></text>`;
    return `<g class=\"along\"><path id=\"along${k}\" d=\"M${at(down ? b : a, r0)}A${r0} ${r0} 0 0 ${down ? 0 : 1} ${at(down ? a : b, r0)}\" fill=\"none\"/>${line}${line}</g>`;
  };
  // Names in lanes that are lower than a letter stand one after another.
  const apart = Math.ceil((12 * px) / lane), after = [];
  const called = (k) => short(name(k), apart > 2 ? 9 : 14), names = [];
  r.handlers.forEach((h, k) => {
    const r0 = R + 8 + k * lane, thick = Math.min(8, lane * 0.62), color = COLORS[k % COLORS.length];
    out += `<circle cx=\"${C}\" cy=\"${C}\" r=\"${r0 + thick / 2}\" fill=\"none\" stroke=\"${color}\" stroke-opacity=\".25\" stroke-width=\"${thick / 2}\"/>`;
    after[k] = k % apart ? after[k - 1] + called(k - 1).length * 8 + 6 : 7;
    if (h.retired) return;
    const a = turn(h.completed), b = a + (h.taken - h.completed) * one;
    if (h.taken > h.completed) out += band(a, b, r0, r0 + thick, `fill=\"${color}\"`);
    out += `<path d=\"M${at(b, r0 - 3)}L${at(b, r0 + thick + 3)}\" stroke=\"${color}\" stroke-width=\"3\"/>`;
    names.push(along(k, r0 + thick / 2, b + (after[k] * px) / r0, called(k)));
  });
  out += names.join(\"\");
  const middle = [r.halted ? `claimed: ${r.next}` : `next claim: #${r.next}`, ...published(r), r.halted ? \"halted\" : `room for ${r.room}`];
  middle.forEach((it, k) => { out += `<text x=\"${C}\" y=\"${C + (18 * k - 23) * px}\" text-anchor=\"middle\" font-size=\"${13 * px}\">${it}</text>`; });
  return `<svg viewBox=\"0 0 ${2 * C} ${2 * C}\" role=\"img\" aria-label=\"${esc(`${tellRing(r)} ${tellTracks(r)}`)}\">${out}</svg>`;
}
const tellTracks = (r) =>
  r.handlers.map((h, k) => (h.retired ? `Handler ${name(k)} is retired.` : `Handler ${name(k)} took the events below ${h.taken} and completed those below ${h.completed}.`)).join(\" \");
// The sequences that a record is about, from one to another.
function touches(r) {
  const f = r.text.split(\",\"), reply = (r.reply ?? \"\").trim().split(\" \");
  if (reply[0] === \"claimed\") return [Number(reply[1]), Number(reply[2])];
  if (reply[0] === \"batch\") return [Number(reply[1]), Number(reply[1]) + reply.length - 4];
  if (reply[0] === \"written\") return [Number(f[2]), Number(f[2])];
  if (reply[0] === \"published\") return [Number(f[2]), Number(f[3])];
  return [1, 0];
}
function drawGraph(r) {
  const all = exchange.handlers, level = [];
  all.forEach((it, h) => (level[h] = Math.max(0, ...it.upstreams.map((u) => 1 + level[u]))));
  const columns = [];
  all.forEach((_, h) => (columns[level[h]] ??= []).push(h));
  const tall = Math.max(...columns.map((it) => it.length)) * 38 + 6, wide = 108, gap = 24, left = 70, place = [];
  columns.forEach((it, i) => it.forEach((h, j) => (place[h] = [left + gap + i * (wide + gap), (tall - it.length * 38) / 2 + j * 38 + 5])));
  const arrow = (x0, y0, x1, y1) => `<path d=\"M${x0} ${y0}C${x0 + 20} ${y0} ${x1 - 24} ${y1} ${x1 - 5} ${y1}\" fill=\"none\" stroke=\"var(--soft)\"/>
    <path d=\"M${x1 - 7} ${y1 - 4}L${x1} ${y1}L${x1 - 7} ${y1 + 4}Z\" fill=\"var(--soft)\"/>`;
  let out = \"\";
  all.forEach((it, h) => {
    const [x, y] = place[h];
    if (!it.upstreams.length) out += arrow(left, tall / 2, x, y + 14);
    for (const u of it.upstreams) out += arrow(place[u][0] + wide, place[u][1] + 14, x, y + 14);
  });
  out += `<rect x=\"1\" y=\"${tall / 2 - 14}\" width=\"${left - 1}\" height=\"28\" rx=\"6\" fill=\"var(--paper)\" stroke=\"var(--soft)\"/>
    <text x=\"${left / 2}\" y=\"${tall / 2 + 4.5}\" text-anchor=\"middle\" font-size=\"12\">${exchange.producers === 1 ? \"producer\" : \"producers\"}</text>`;
  all.forEach((it, h) => {
    const [x, y] = place[h], now = r.handlers[h];
    out += `<g opacity=\"${now.retired ? 0.5 : 1}\"><rect x=\"${x}\" y=\"${y}\" width=\"${wide}\" height=\"28\" rx=\"6\" fill=\"var(--paper)\" stroke=\"${COLORS[h % COLORS.length]}\"
      stroke-width=\"${now.gates ? 4 : 1.5}\" ${now.retired ? 'stroke-dasharray=\"4 3\"' : \"\"}/><text x=\"${x + wide / 2}\" y=\"${y + 18.5}\" text-anchor=\"middle\"
      font-size=\"12.5\">${esc(short(it.name))}</text></g>`;
  });
  const says = all.map((it, h) => `Handler ${it.name} follows ${it.upstreams.length ? list(it.upstreams.map(name)) : \"the producers\"}${
    r.handlers[h].retired ? \" and is retired\" : r.handlers[h].gates ? \" and frees slots\" : \"\"}.`).join(\" \");
  const width = left + columns.length * (wide + gap) + 2;
  return `<svg viewBox=\"0 0 ${width} ${tall}\" style=\"width:${width}px\" role=\"img\" aria-label=\"${esc(says)}\">${out}</svg>`;
}
// What the cards tell of a record.
function tellSaid(r) {
  const told = `${plain(r.text)}${r.reply ? `  \\u2192  ${plain(r.reply)}` : \"\"}${r.fault ? `  \\u2192  ${r.fault}` : \"\"}`;
  return `<b id=\"head\">${esc(told)}</b><p id=\"asks\" class=\"soft\">${asks(r)}</p><p id=\"why\">${explain(r)}</p>`;
}
function tellHandlers(r) {
  const finals = r.handlers.filter((h) => h.gates).length;
  const rows = r.handlers.map((h, k) => {
    const asked = h.poll === \"batch\" ? `batch: ${next(h).replaceAll(\" \", \"&nbsp;\")}` : POLL[h.poll];
    return `<tr><td class=\"name\"><svg viewBox=\"0 0 10 10\" width=\"10\" height=\"10\" style=\"display:inline-block;width:10px\" aria-hidden=\"true\">
      <circle cx=\"5\" cy=\"5\" r=\"5\" fill=\"${COLORS[k % COLORS.length]}\"/></svg>&nbsp;${code(name(k))}</td><td class=\"n\">${h.taken}</td><td class=\"n\">${
      h.holds && finals > 1 ? \"least: \" : \"\"}${h.completed}</td><td class=\"asked\">${asked}</td><td>${h.gates ? \"yes\" : \"no\"}</td></tr>`;
  });
  const waits = r.handlers.map((h, k) => (h.poll === \"gating\" ? whyWaits(r, k) : \"\"));
  return `<table><tr><th>handler</th><th class=\"n\">taken</th><th class=\"n\">completed</th><th class=\"asked\">a poll<br>gets</th><th>frees<br>slots</th></tr>${rows.join(\"\")}</table>
    <p>${[...new Set(waits)].filter(Boolean).join(\" \")}</p>`;
}
function tellClaims(r) {
  const room = r.halted ? \"Halted: no claim is given a sequence.\" : r.room === exchange.size ? \"A claim may have the whole ring.\" : whyNoRoom(r);
  const own = Array.from({ length: exchange.producers }, (_, p) => stretches(r).filter((it) => it.producer === p && it.stage !== \"published\"));
  const rows = own.map((it, p) => `<tr><td>${p}</td><td>${
    it.slice(0, 8).map((s) => `${span(s.lo, s.hi)} (${s.stage})`).join(\", \") || \"nothing\"}${it.length > 8 ? \", \\u2026\" : \"\"}</td></tr>`);
  return `<table><tr><th>producer</th><th>has claimed, and not published</th></tr>${rows.join(\"\")}</table><p id=\"room\">${room}</p>`;
}
const CARDS = { said: tellSaid, handlers: tellHandlers, claims: tellClaims };
// Each card keeps the height of its longest texts, so that nothing moves as one steps, unless that takes much of the window.
let longest;
function keepHeights() {
  longest ??= Object.entries(CARDS).map(([id, tell]) => {
    const all = records.filter((r) => id === \"said\" || r.next !== undefined).map(tell);
    return [id, [...new Set(all)].sort((a, b) => b.length - a.length).slice(0, 12)];
  });
  $(\"both\").hidden = false;
  for (const [id, all] of longest) {
    const card = $(id);
    // All in one cell, so that they are laid out once, and the tallest makes it.
    card.style = \"display: grid\";
    card.innerHTML = all.map((told) => `<div style=\"grid-area: 1/1; min-width: 0\">${told}</div>`).join(\"\");
    card.style = `min-height: ${Math.min(card.getBoundingClientRect().height, innerHeight / (id === \"said\" ? 3 : 2))}px`;
  }
}

// The list's lines up to a record that are not there yet: a page opens with some, and has the others soon after.
const MORE = 150;
function addLines(upto) {
  const from = $(\"lines\").children.length, added = records.slice(from, Math.max(from, upto));
  $(\"lines\").insertAdjacentHTML(\"beforeend\", added.map((r, k) => `<li><button data-k=\"${from + k}\"><span>${r.record}</span><span>${esc(plain(r.text))}</span><span class=\"${
    r.fault || r.reply?.startsWith(\"refused\") ? \"bad\" : \"\"}\">${esc(plain(r.fault ?? r.reply ?? \"\").slice(0, 200))}</span></button></li>`).join(\"\"));
}
function addRest() {
  addLines($(\"lines\").children.length + MORE);
  if ($(\"lines\").children.length < records.length) setTimeout(addRest);
}

// Scrolls the list to a record; lines get their heights as they are seen.
function reveal(line) {
  const box = $(\"lines\"), at = line.getBoundingClientRect(), all = box.getBoundingClientRect();
  if (at.top < all.top || at.bottom > all.bottom) box.scrollTop += at.top - all.top - box.clientHeight / 2;
}
function show(to, keeps) {
  step = Math.max(0, Math.min(to, records.length - 1));
  addLines(step + MORE);
  const r = records[step], before = $(\"lines\").querySelector(\"[aria-current]\"), line = $(\"lines\").children[step]?.firstChild;
  before?.removeAttribute(\"aria-current\");
  line?.setAttribute(\"aria-current\", \"step\");
  if (line) { reveal(line.parentNode); requestAnimationFrame(() => reveal(line.parentNode)); }
  $(\"at\").value = step;
  $(\"at\").setAttribute(\"aria-valuetext\", `record ${r.record}`);
  $(\"where\").textContent = `record ${r.record} of ${end.last}`;
  for (const id of [\"first\", \"back\"]) $(id).disabled = step === 0;
  for (const id of [\"on\", \"end\"]) $(id).disabled = step === records.length - 1;
  $(\"both\").hidden = r.next === undefined;
  if (r.next !== undefined) {
    $(\"ring\").innerHTML = drawRing(r);
    $(\"graph\").innerHTML = drawGraph(r);
  }
  for (const [id, tell] of Object.entries(CARDS)) if (id === \"said\" || r.next !== undefined) $(id).innerHTML = tell(r);
  if (!keeps) history.replaceState(null, \"\", `#step=${r.record}`);
}
function open() {
  if (end.fault && !records.some((r) => r.fault)) records.push({ record: end.last + 1, text: \"\", fault: end.fault });
  const shown = [];
  for (const { record } of records) {
    if (shown.at(-1)?.[1] === record - 1) shown.at(-1)[1] = record;
    else shown.push([record, record]);
  }
  if (shown.length > 1 || shown.at(-1)?.[1] < end.last) {
    $(\"part\").hidden = false;
    $(\"part\").textContent = `Of ${count(end.last, \"record\")} the page has ${list(shown.map(([lo, hi]) => (lo === hi ? lo : `${lo} to ${hi}`)))}: --from and --steps show others.`;
  }
  $(\"key\").innerHTML = Object.entries(WAYS).map(([way, said]) => `<span><svg viewBox=\"0 0 18 14\" aria-hidden=\"true\">${PATTERNS}<rect x=\".5\" y=\".5\" width=\"17\" height=\"13\"
    fill=\"${fill(way)}\" stroke=\"var(--ink)\"/></svg>${said}</span>`).join(\"\") + `<span><svg viewBox=\"0 0 18 14\" aria-hidden=\"true\"><rect x=\"2\" y=\"2\" width=\"14\" height=\"10\" fill=\"none\"
    stroke=\"var(--ink)\" stroke-width=\"3\"/></svg>touched by this record</span>` + \"<span>So #41 p, by 7, <b>99</b>: sequence 41 is published, by producer 7, with the event 99. Around the ring a track for each handler: thick from what it completed to what it took, at its name.</span>\";
  $(\"at\").max = records.length - 1;
  const asked = () => Number(/^#step=(\\d+)$/.exec(location.hash)?.[1] ?? NaN);
  const find = (k) => { const i = records.findIndex((r) => r.record >= k); return i < 0 ? records.length - 1 : i; };
  keepHeights();
  show(Number.isNaN(asked()) ? (exchange ? records.findIndex((r) => r.exchange) : records.length - 1) : find(asked()));
  setTimeout(addRest);
  window.onresize = () => { keepHeights(); show(step, true); };
  window.onhashchange = () => { if (!Number.isNaN(asked())) show(find(asked()), true); };
}
const TO = { first: () => 0, back: () => step - 1, on: () => step + 1, end: () => records.length - 1 };
for (const [id, to] of Object.entries(TO)) $(id).onclick = () => show(to());
$(\"at\").oninput = () => show(Number($(\"at\").value));
$(\"lines\").onclick = (e) => { const at = e.target.closest(\"button\"); if (at) show(Number(at.dataset.k)); };
document.onkeydown = (e) => {
  const to = { ArrowRight: step + 1, ArrowDown: step + 1, ArrowLeft: step - 1, ArrowUp: step - 1, Home: 0, End: records.length - 1 }[e.key];
  if (to === undefined || e.target === $(\"at\") || (e.target === $(\"graph\") && $(\"graph\").scrollWidth > $(\"graph\").clientWidth) || e.altKey || e.ctrlKey || e.metaKey) return;
  e.preventDefault();
  show(to);
};
open();
</script>
</body>
</html>
";
