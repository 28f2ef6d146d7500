//! Constant parts of a page, which template/make makes.

/// The rest of the page of a history.
pub(crate) const HISTORY: &str = "\
// One record for the situation before the first shown step, one for each allowed step, and on\
e for\n// the forbidden step, which has the situation before it.\n\nconst fault = H.forbidden;\
\n\nfunction recordOf(step, i) {\n  const chosen = step.choice\n    ? { fronts: step.choice.fr\
onts.map((front) => front.join(' ')), may: step.choice.may }\n    : {};\n  return { ...step, .\
..chosen, step: H.before + i };\n}\n\nconst R = H.steps.map(recordOf);\nif (fault) {\n  const \
before = { ...R[R.length - 1], fronts: undefined, may: undefined };\n  R.push({ ...before, ...\
recordOf(fault, R.length), bad: true });\n}\nR.forEach((r, i) => {\n  r.words = r.event ? r.ev\
ent.split(' ') : [];\n  r.was = R[i - 1];\n});\nconst first = H.before;\nconst last = H.before \
+ R.length - 1;\n\n// The word at which the choice of a release begins.\nconst RELEASES = { le\
ave: 2, wait: 3, signal: 3, 'signal-leave': 3, until: 3, 'signal-wait': 4 };\nconst nextOf = (\
r) => (r.words[0] in RELEASES ? r.words.slice(RELEASES[r.words[0]]) : null);\nconst automatic \
= H.mode === 'automatic';\nconst [entryRank, waiterRank, signallerRank] = H.ranks.split(' ').m\
ap(Number);\n\n// A step in a sentence: what an event does, whom it serves, and why who goes o\
n.\n\nconst QUEUES = automatic\n  ? [['ready', waiterRank], ['entry', entryRank]]\n  : [\n      \
['waiters', waiterRank],\n      ...(signallerRank ? [['signallers', signallerRank]] : []),\n      \
['entry', entryRank],\n    ];\nconst ORDER = QUEUES.slice().sort((a, b) => b[1] - a[1]);\n\nfu\
nction orderWords() {\n  const groups = [];\n  ORDER.forEach(([name, rank], i) => {\n    if (i \
&& ORDER[i - 1][1] === rank) groups[groups.length - 1].push(name);\n    else groups.push([name\
]);\n  });\n  const words = groups.map((g) => (g.length > 1 ? `${listed(g)} level` : g[0]));\n  \
return words.join(' above ').replace(/ready/, 'the ready');\n}\n\nfunction whoGoesOn(r) {\n  c\
onst next = nextOf(r);\n  if (next[0] === 'entry') return 'the monitor is open to whoever ente\
rs next';\n  return `seat ${next[0] === 'stay' ? r.words[1] : next[1]} goes on`;\n}\n\nfunctio\
n rankOf(next) {\n  if (next === 'entry') return entryRank;\n  return /^[wu]/.test(next) ? wai\
terRank : signallerRank;\n}\n\n// The kind left a choice: between whom.\nfunction freeChoice(r\
) {\n  const name = (next) =>\n    next === 'entry' ? 'a caller' : `seat ${next === 'stay' ? r\
.words[1] : next.split(' ')[1]}`;\n  const order = ['w', 'u', 's', 'e'];\n  const byRank = (x, \
y) => rankOf(y) - rankOf(x) || order.indexOf(x[0]) - order.indexOf(y[0]);\n  const all = r.may\
.slice().sort(byRank).map(name);\n  const between = all.length > 2 ? 'among' : 'between';\n  r\
eturn `${H.kind} leaves the choice ${between} ${listed(all)}: ${whoGoesOn(r)}.`;\n}\n\nfunctio\
n reason(r) {\n  if (r.may.length > 1) return freeChoice(r);\n  const has = (queue) => r.front\
s.some((front) => front.startsWith(queue));\n  const over = (a, b) => `${H.kind} puts ${a} abo\
ve ${b}, so ${whoGoesOn(r)}.`;\n  switch (nextOf(r)[0]) {\n    case 'waiter':\n      return ov\
er('waiters', has('signaller') ? 'signallers' : 'entry');\n    case 'signaller':\n    case 'st\
ay':\n      return over('signallers', has('waiter') ? 'waiters' : 'entry');\n    case 'until':\
\n      return over('the ready', 'entry');\n    default:\n      return `Nobody inside could go \
on, so ${whoGoesOn(r)}.`;\n  }\n}\n\n// The predicate that a seat waited for, which the record \
before its release has.\nfunction waitedFor(r, seat) {\n  for (let t = r.was; t; t = t.was) {\n    \
const found = (t.until || []).find(([j]) => j === Number(seat));\n    if (found) return found[\
1];\n  }\n  return 0;\n}\n\nconst queueOn = (r, condition) => (r.was.conditions || [])[conditi\
on] || [];\n\nfunction sayUntil(r) {\n  const [, s, predicate] = r.words;\n  const waits = `Se\
at ${s} waits until ${PREDICATES[predicate]}`;\n  return nextOf(r)[0] === 'stay'\n    ? `${wai\
ts}. That holds already, so seat ${s} goes on.`\n    : `${waits}, which isn\\u2019t so. ${reas\
on(r)}`;\n}\n\nfunction saySignal(r) {\n  const [, s, condition] = r.words;\n  const signals = \
`Seat ${s} signals condition ${condition}`;\n  const [served] = queueOn(r, condition);\n  if (\
served === undefined) {\n    return `${signals}. Nobody waits there, so nothing comes of it, a\
nd seat ${s} goes on.`;\n  }\n  const then = nextOf(r)[0] === 'stay' ? '. ' : `, seat ${s} the \
signaller queue. `;\n  return `${signals}: seat ${served} is served and joins the waiter queue\
${then}${reason(r)}`;\n}\n\nfunction saySignalAll(r) {\n  const [, s, condition] = r.words;\n  \
const served = queueOn(r, condition);\n  const signals = `Seat ${s} signals all who wait on co\
ndition ${condition}`;\n  if (!served.length) return `${signals}: nobody does. It goes on.`;\n  \
const [join, order] = served.length > 1 ? ['join', ', in that order'] : ['joins', ''];\n  retu\
rn `${signals}: ${seatsOf(served)} ${join} the waiter queue${order}. Seat ${s} goes on.`;\n}\n\
\nfunction servedBy(r, condition, nobody) {\n  const [served] = queueOn(r, condition);\n  retu\
rn served === undefined ? nobody : `seat ${served} is served and joins the waiter queue. `;\n}\
\n\nconst SAY = {\n  enter: ([, s, via]) =>\n    via === 'free'\n      ? `Seat ${s} enters, an\
d finds the monitor free.`\n      : `Seat ${s} enters: it waited for entry, and is handed the \
monitor.`,\n  act: ([, s], r) => `Seat ${s} ${actWords(r)}.`,\n  resume: ([, s, from], r) =>\n    \
from === 'until'\n      ? `Seat ${s} resumes, and is active: it waited until ${PREDICATES[wait\
edFor(r, s)]}.`\n      : `Seat ${s} resumes from the ${from} queue, and is active.`,\n  leave: \
([, s], r) => `Seat ${s} leaves. ${reason(r)}`,\n  wait: ([, s, condition], r) => `Seat ${s} w\
aits on condition ${condition}. ${reason(r)}`,\n  until: (_, r) => sayUntil(r),\n  signal: (_, \
r) => saySignal(r),\n  'signal-all': (_, r) => saySignalAll(r),\n  'signal-leave': ([, s, c], \
r) =>\n    `Seat ${s} signals condition ${c} and leaves: ` +\n    servedBy(r, c, 'nobody waits \
there. ') +\n    reason(r),\n  'signal-wait': ([, s, c, own], r) =>\n    `Seat ${s} signals co\
ndition ${c} and waits on condition ${own}: ` +\n    servedBy(r, c, `nobody waits on ${c}. `) \
+\n    reason(r),\n};\n\nfunction say(r) {\n  if (r.bad) return claim(r);\n  if (r.event) retu\
rn SAY[r.words[0]](r.words, r);\n  return r.step === 0\n    ? 'Before the first event: the mon\
itor is open, and nobody is inside.'\n    : `After ${plural(r.step, 'event')}, which this page \
doesn\\u2019t show.`;\n}\n\n// A forbidden event in a sentence, as it claims to be.\n\nfunctio\
n claimedAct(r) {\n  const words = `claims that it ${actWords(r)}`;\n  return words.includes('\
reply') ? words : `${words} (reply ${r.words[4]})`;\n}\n\nconst CLAIMS = {\n  enter: (r) =>\n    \
r.words[2] === 'free'\n      ? 'enters, as if the monitor were free'\n      : 'enters, as if i\
t were handed the monitor',\n  act: claimedAct,\n  leave: () => 'leaves',\n  wait: (r) => `wai\
ts on condition ${r.words[2]}`,\n  signal: (r) => `signals condition ${r.words[2]}`,\n  'signa\
l-leave': (r) => `signals condition ${r.words[2]} and leaves`,\n  'signal-all': (r) => `signal\
s all who wait on condition ${r.words[2]}`,\n  'signal-wait': (r) => `signals condition ${r.wo\
rds[2]} and waits on condition ${r.words[3]}`,\n  until: (r) => `waits until ${PREDICATES[r.wo\
rds[2]] || `predicate ${r.words[2]} holds`}`,\n  resume: (r) => `goes on, from ${r.words[2]}`,\
\n};\n\nfunction claim(r) {\n  const next = nextOf(r);\n  const does = `Seat ${r.words[1]} ${C\
LAIMS[r.words[0]](r)}`;\n  if (!next) return `${does}.`;\n  if (next[0] === 'stay') return `${\
does}, and stays active.`;\n  if (next[0] === 'entry') return `${does}, and opens the monitor \
to a caller.`;\n  return `${does}, and hands the monitor to seat ${next[1]}.`;\n}\n\nfunction \
verdictWords(verdict) {\n  const [word, step, , reasonWord] = verdict.split(' ');\n  return wo\
rd === 'legal' ? 'legal' : `step ${step}: ${reasonWord}`;\n}\n\nconst wrongWords = (r) => `For\
bidden: ${r.why}.`;\n\n// Where each seat is after each step.\n\n// The seat that is known to \
wait for entry, since the next event hands it the monitor.\nfunction atEntry(r) {\n  const aft\
er = R[r.step - first + 1];\n  const isHanded =\n    after && !after.bad && after.words[0] === \
'enter' && after.words[2] === 'handed';\n  return isHanded ? Number(after.words[1]) : undefine\
d;\n}\n\nfunction placesOf(r) {\n  const at = {};\n  for (let s = 0; s < H.seats; s++) at[s] = \
r.inside.includes(s) ? 'inside' : 'outside';\n  (r.conditions || []).forEach((queue, c) => {\n    \
queue.forEach((s) => (at[s] = `condition${c}`));\n  });\n  (r.waiter || []).forEach((s) => (at\
[s] = 'waiter'));\n  (r.signaller || []).forEach((s) => (at[s] = 'signaller'));\n  (r.until || \
[]).forEach(([s]) => (at[s] = 'until'));\n  const [turn, seat] = r.turn.split(' ');\n  if (tur\
n === 'of') at[seat] = 'active';\n  if (turn === 'due') at[seat] = 'due';\n  return at;\n}\n\n\
R.forEach((r) => {\n  r.at = placesOf(r);\n  r.entry = atEntry(r);\n});\n\n// The monitor as b\
oxes: who is active, the data, each queue, and who is outside.\n\nfunction entryBox(r) {\n  if \
(r.entry === undefined || isHiding()) {\n    return box('entry', 'Entry', '', make('p', 'quiet\
', 'nobody known'));\n  }\n  return box('entry', 'Entry', '', queueOf([r.entry], 'entry'), mak\
e('p', 'quiet', 'enters next'));\n}\n\nfunction queueBox(name, r) {\n  switch (name) {\n    ca\
se 'waiters':\n      return box('waiter', 'Waiter queue', '', queueOf(r.waiter, 'waiter'));\n    \
case 'signallers':\n      return box('signaller', 'Signaller queue', '', queueOf(r.signaller, \
'signaller'));\n    case 'ready':\n      return box('until', 'Ready', '', queueOf(r.ready, 'un\
til'));\n    default:\n      return entryBox(r);\n  }\n}\n\nfunction activeWords(r) {\n  const \
[turn, seat, from] = r.turn.split(' ');\n  if (turn === 'open') return make('p', 'quiet', 'nob\
ody: open to whoever enters');\n  if (turn === 'of') return queueOf([Number(seat)], 'active');\
\n  const queue = from === 'until' ? 'waits-until' : `${from} queue`;\n  const next = make('sp\
an', '', `is next, from the ${queue}`);\n  return make('div', 'seats', token(Number(seat), fro\
m, 'span'), next);\n}\n\nfunction topRow(r) {\n  return make('div', 'row', box('active half', \
'Active', '', activeWords(r)), dataBox(r));\n}\n\n// The queues in the kind's order, with `>` \
or `=` between them.\nfunction orderRow(r) {\n  const head = make('h2', '', `Who goes on at a \
release: ${orderWords()}`);\n  const line = make('div', 'row', head);\n  ORDER.forEach(([name, \
rank], i) => {\n    if (i) {\n      const sign = make('span', 'rank', ORDER[i - 1][1] === rank \
? '=' : '>');\n      sign.setAttribute('aria-hidden', 'true');\n      line.append(sign);\n    \
}\n    line.append(queueBox(name, r));\n  });\n  return line;\n}\n\nfunction untilLine(r, [s, \
predicate]) {\n  const isTrue = r.ready.includes(s);\n  const truth = make('span', `truth ${is\
True ? 'yes' : 'quiet'}`, isTrue ? 'true: ready' : 'false');\n  const words = make('span', '', \
`until ${PREDICATES[predicate]}`);\n  return make('li', '', token(s, 'until', 'span'), words, \
truth);\n}\n\nfunction waitersRow(r) {\n  if (!automatic) {\n    const boxes = r.conditions.ma\
p((queue, c) => {\n      const [title, note] = CONDITIONS[c] ? [CONDITIONS[c], 'condition'] : \
[`Condition ${c}`, ''];\n      return box('condition', title, note, queueOf(queue, 'condition'\
));\n    });\n    return boxes.length ? [make('div', 'row', ...boxes)] : [];\n  }\n  const wai\
ts = r.until.map((wait) => untilLine(r, wait));\n  const list = waits.length ? make('ol', 'wai\
ts', ...waits) : make('p', 'quiet', 'nobody');\n  return [make('div', 'row', box('until', 'Wai\
ts until', 'first wait first', list))];\n}\n\nfunction outsideRow(r) {\n  const out = [];\n  f\
or (let s = 0; s < H.seats; s++) {\n    const isAtEntry = s === r.entry && !isHiding();\n    i\
f (!r.inside.includes(s) && !isAtEntry) out.push(s);\n  }\n  return make('div', 'row', box('ou\
tside', 'Outside the monitor', '', queueOf(out, 'outside')));\n}\n\nfunction showBoxes(r) {\n  \
const parts = [topRow(r), orderRow(r), ...waitersRow(r)];\n  if (r.bad) {\n    const head = `B\
efore step ${r.step}, which can\\u2019t be: the monitor as it stands`;\n    parts.unshift(make\
('h2', '', head));\n  }\n  $('boxes').replaceChildren(make('div', 'monitor', ...parts), outsid\
eRow(r));\n  const when = r.bad ? 'before' : 'after';\n  $('boxes').setAttribute('aria-label', \
`The monitor ${when} step ${r.step}`);\n}\n\n// The sentence of a step, and who might have gon\
e on.\n\nfunction candidateOf(front, caller) {\n  const [queue, s] = front.split(' ');\n  if (\
queue === 'waiter') return [front, `seat ${s}, from the waiter queue`, waiterRank];\n  if (que\
ue === 'until') return [front, `seat ${s}, whose predicate holds`, waiterRank];\n  return s ==\
= caller\n    ? ['stay', `seat ${s}, by staying active`, signallerRank]\n    : [front, `seat $\
{s}, from the signaller queue`, signallerRank];\n}\n\n// Who could go on: each candidate with \
its words and its priority, the highest first.\nfunction candidates(r) {\n  const caller = r.w\
ords[1];\n  const found = r.fronts.map((front) => candidateOf(front, caller));\n  if (r.may.in\
cludes('stay') && !found.some(([next]) => next === 'stay')) {\n    return [['stay', `seat ${ca\
ller}, by staying active`, 9]];\n  }\n  found.push(['entry', 'whoever enters next', entryRank]\
);\n  return found.sort((a, b) => b[2] - a[2]);\n}\n\nfunction takenWords(r, took) {\n  if (to\
ok === 'stay') return `seat ${r.words[1]} stays active`;\n  return took === 'entry' ? 'whoever \
enters next' : took;\n}\n\nfunction choiceLine(r, [next, words], took) {\n  const may = r.may.\
includes(next);\n  const isTaken = next === took;\n  const notTaken = may ? (r.bad ? 'permitte\
d' : 'permitted too') : 'not permitted';\n  const taken = may ? 'taken' : 'taken, forbidden';\n  \
const filled = may ? '\\u25CF' : '\\u00D7';\n  const hollow = may ? '\\u25CB' : '\\u2013';\n  \
const sign = make('span', 'sign', isTaken ? filled : hollow);\n  sign.setAttribute('aria-hidde\
n', 'true');\n  const how = make('span', 'how', isTaken ? taken : notTaken);\n  const cls = (i\
sTaken ? 'took ' : '') + (may ? '' : 'barred');\n  return make('li', cls, sign, make('span', '\
who', named(words)), how);\n}\n\nfunction showChoices(r) {\n  const area = $('choices');\n  ar\
ea.replaceChildren();\n  area.hidden = !r.event || (r.bad && !r.may);\n  if (area.hidden) retu\
rn;\n  if (!r.may) {\n    const words = 'No choice here: this step doesn\\u2019t give the moni\
tor up.';\n    area.append(make('p', 'quiet', words));\n    return;\n  }\n  const took = nextO\
f(r).join(' ');\n  const all = candidates(r);\n  if (!all.some(([next]) => next === took)) all\
.push([took, takenWords(r, took), 0]);\n  area.append(make('h2', '', `Who may go on under ${H.\
kind}`));\n  area.append(make('ul', '', ...all.map((it) => choiceLine(r, it, took))));\n}\n\nf\
unction showSay(r) {\n  const line = $('say');\n  const end = r.step === last && TOLD.end;\n  \
line.replaceChildren(make('span', 'unseen', `Step ${r.step}. `), named(say(r)));\n  if (r.bad) \
line.append(make('span', 'bad', named(wrongWords(r))));\n  if (end) line.append(make('span', '\
bad', end));\n  const others = H.kinds.filter((k) => k.kind !== H.kind && k.why && stepOf(k) =\
== r.step);\n  if (others.length) {\n    const names = listed(others.map((k) => k.kind));\n    \
line.append(make('span', 'unseen', ` ${names} would forbid this step.`));\n  }\n  $('told').cl\
assList.toggle('bad', Boolean(r.bad || end));\n  $('line').textContent = r.event || '';\n}\n\n\
// The ten kinds: what each says of the same events.\n\nconst OF = {\n  PB: 'Hoare\\u2019s kin\
d',\n  NPNB: 'Mesa\\u2019s own kind, and that of POSIX, Java and Go',\n};\n\nconst stepOf = (k\
) => Number(k.verdict.split(' ')[1]);\n\nconst chips = H.kinds.map((k) => {\n  const isOwn = k\
.kind === H.kind;\n  const ownWords = 'the kind of this history';\n  const cls = `chip${k.why \
? ' no' : ''}${isOwn ? ' own' : ''}`;\n  const words = make('span', 'unseen', isOwn ? `, ${own\
Words}` : '');\n  const isShown = k.why && stepOf(k) >= first && stepOf(k) <= last;\n  const t\
oIt = () => go(isShown ? stepOf(k) : now, own, k);\n  const chip = button(cls, toIt, make('b', \
'', k.kind), make('span', ''), words);\n  if (isOwn) chip.title = ownWords;\n  $('chips').appe\
nd(make('li', '', chip));\n  return chip;\n});\n\nfunction showChip(chip, k, r) {\n  const isP\
ast = Boolean(k.why) && stepOf(k) <= r.step;\n  const isHidden = isHiding() && !isPast && r.st\
ep < last;\n  chip.classList.toggle('past', isPast);\n  chip.classList.toggle('no', Boolean(k.\
why) && !isHidden);\n  chip.children[1].textContent = isHidden ? 'so far legal' : verdictWords\
(k.verdict);\n}\n\n// The sentence of one kind, said of several.\nfunction ofMany(kind, why) {\
\n  return why\n    .replace(`${kind} puts`, 'they put')\n    .replace(`${kind} monitors have`\
, 'they have')\n    .replace(`${kind} monitors`, 'their monitors');\n}\n\nfunction noteOf(kind\
s) {\n  const [k] = kinds;\n  const names = make('b', '', listed(kinds.map((it) => it.kind)));\
\n  if (!k.why) return make('p', '', names, ` permits all ${plural(H.events, 'event')}.`);\n  \
const isMany = kinds.length > 1;\n  const why = isMany ? ofMany(k.kind, k.why) : k.why;\n  con\
st forbids = isMany ? 'forbid' : 'forbids';\n  return make('p', '', names, named(` ${forbids} \
step ${stepOf(k)}: ${why}.`));\n}\n\nfunction showKinds(r, all) {\n  const notes = new Map();\n  \
H.kinds.forEach((k, i) => {\n    showChip(chips[i], k, r);\n    if ((k.why && (stepOf(k) === r\
.step || all)) || picked === k) {\n      const same = k.why ? stepOf(k) + k.why.replaceAll(k.k\
ind, '') : '';\n      notes.set(same, [...(notes.get(same) || []), k]);\n    }\n  });\n  $('no\
tes').replaceChildren(...[...notes.values()].map(noteOf));\n}\n\n// What the table says of a s\
tep, besides its sentence and the data.\n\nfunction headOf() {\n  const conditions = (R[0].con\
ditions || []).map((_, c) => CONDITIONS[c] || `Condition ${c}`);\n  const signaller = signalle\
rRank ? ['Signaller'] : [];\n  const queues = automatic ? ['Waits until', 'Ready'] : [...condi\
tions, 'Waiter', ...signaller];\n  return ['Step', 'What happens', 'Active', ...queues, 'Data'\
];\n}\n\nfunction turnCell(r) {\n  const [turn, seat] = r.turn.split(' ');\n  if (turn === 'op\
en') return 'open';\n  return turn === 'of' ? seat : `${seat} next`;\n}\n\nfunction queueCells\
(r) {\n  if (automatic) {\n    const waits = r.until.map(([s, predicate]) => `${s}: ${PREDICAT\
ES[predicate]}`);\n    return [waits.join('; '), r.ready.join(', ')];\n  }\n  const signaller \
= signallerRank ? [r.signaller] : [];\n  return [...r.conditions, r.waiter, ...signaller].map(\
(queue) => queue.join(', '));\n}\n\nconst placeCells = (r) => [turnCell(r), ...queueCells(r)];\
\nconst isLongCell = (i) => automatic && i === 3;\n\n// Ask first: the call is shown, and who \
may go on is asked, be it one or several. Then the step is shown as it was.\n\nconst MOST_SEAT\
S_ASKED = 8; // with whoever enters next as many as there are keys\nlet guesses = [];\n\nconst \
seatOfNext = (r, next) =>\n  next === 'stay' ? r.words[1] : next === 'entry' ? next : next.spl\
it(' ')[1];\nconst allowed = (r) => r.may.map((next) => seatOfNext(r, next));\n\n// Whoever mi\
ght be thought to go on: whoever may, the first of each queue, and who signals or waits in vai\
n.\nfunction guessesOf(r) {\n  const fronts = r.fronts.map((front) => seatOfNext(r, front));\n  \
const sleepers = (r.was.conditions || []).flatMap((queue) => queue.slice(0, 1).map(String));\n  \
const waits = (r.was.until || []).map(([s]) => String(s));\n  const caller = r.words[0] === 's\
ignal' ? [r.words[1]] : [];\n  const seats = new Set([...allowed(r), ...fronts, ...caller, ...\
sleepers, ...waits]);\n  seats.delete('entry');\n  return [...[...seats].slice(0, MOST_SEATS_A\
SKED).sort((a, b) => a - b), 'entry'];\n}\n\nconst guessWords = (guess) => (guess === 'entry' \
? 'whoever enters next' : seatName(guess));\n\nfunction guessLine(guess, i) {\n  const tick = \
make('input');\n  Object.assign(tick, { type: 'checkbox', autocomplete: 'off' });\n  return ma\
ke('label', 'guess', make('kbd', '', String(i + 1)), tick, make('span', '', guessWords(guess))\
);\n}\n\nfunction questionForm() {\n  const check = make('button', 'check', make('kbd', '', 'E\
nter'), 'Check');\n  const form = make('form', 'guesses', ...guesses.map(guessLine), check);\n  \
form.addEventListener('submit', (event) => {\n    event.preventDefault();\n    answer();\n  })\
;\n  return form;\n}\n\nconst ticks = () => [...$('choices').querySelectorAll('input')];\n\nfu\
nction tick(i) {\n  if (ticks()[i]) ticks()[i].click();\n}\n\n// Where only one could be guess\
ed nothing is asked.\nfunction ask(step) {\n  const r = R[step - first];\n  guesses = r && r.m\
ay && r.was ? guessesOf(r) : [];\n  if (guesses.length < 2) {\n    show(step);\n    return;\n  \
}\n  [now, question] = [step, r];\n  showAround(r, true);\n  $('say').replaceChildren(named(`S\
eat ${r.words[1]} ${CLAIMS[r.words[0]](r)}.`));\n  $('told').classList.remove('bad');\n  $('ch\
oices').hidden = false;\n  $('choices').replaceChildren(make('h2', '', `Who may go on under ${\
H.kind}? Tick all.`), questionForm());\n  for (const cls of ['answer', 'line']) $(cls).textCon\
tent = '';\n}\n\n// Whether what is ticked is right, and what is said of it.\nfunction judged(\
r, ticked) {\n  const may = (guess) => allowed(r).includes(guess);\n  const wrong = ticked.fil\
ter((guess) => !may(guess));\n  const missing = guesses.filter((guess) => may(guess) && !ticke\
d.includes(guess));\n  if (wrong.length || missing.length) {\n    const not = wrong.length ? `\
Not ${listed(wrong.map(guessWords))}. ` : '';\n    const too = missing.length ? `Also ${listed\
(missing.map(guessWords))}.` : '';\n    return [false, `${not}${too}`.trim()];\n  }\n  return \
[true, r.may.length > 1 ? `Right: ${H.kind} leaves it open.` : 'Right.'];\n}\n\n// Judges what \
is ticked, and shows the step; a question of which nothing is ticked doesn't count.\nfunction \
answer() {\n  if (!question) return;\n  const r = question;\n  const ticked = guesses.filter((\
_, i) => ticks()[i].checked);\n  show(now);\n  if (!ticked.length) return;\n  const [isRight, \
words] = judged(r, ticked);\n  $('answer').textContent = words;\n  $('answer').classList.toggl\
e('bad', !isRight);\n  scored(isRight);\n}\n\n// The head of the page.\n\nfunction showVerdict\
() {\n  const [word, step, , reasonWord] = H.verdict.split(' ');\n  const isLegal = word === '\
legal';\n  const forbidden = `forbidden at step ${step}: ${reasonWord}`;\n  const verdict = is\
Legal ? `legal, ${plural(H.events, 'event')}` : forbidden;\n  $('verdict').textContent = isKno\
wn(last) ? verdict : '';\n  $('verdict').classList.toggle('bad', !isLegal);\n}\n\nfunction hea\
dWords() {\n  const kind = `${H.kind}, ${H.mode}${OF[H.kind] ? ` (${OF[H.kind]})` : ''}.`;\n  \
const conditions = automatic ? '' : `, ${plural(H.conditions, 'condition')}`;\n  const size = \
`${plural(H.seats, 'seat')}${conditions}, ${objectWords()}.`;\n  const isPart = H.before > 0 |\
| last < H.events;\n  const shownSteps = `The page shows steps ${first + 1} to ${last} of ${H.\
events}.`;\n  return `${kind} ${size}${isPart && last > first ? ` ${shownSteps}` : ''}`;\n}\n\n\
return beginHistory({ kind: H.kind, noun: 'A history', ask, answer, tick });\n}\n\nbegin();\n}\
)();\n</script>\n</body>\n</html>\n";

/// The rest of the page of a log.
pub(crate) const LOG: &str = "\
// One record for the situation before the first shown line, one for each line of the log that \
the\n// run tells, and one for the line that misfits. A step that no line tells belongs to a l\
ine of its\n// thread: to the wait that runs out, or to the resume of a thread that wakes unas\
ked.\n\nconst first = H.before;\n\nfunction recordOf(entry, step) {\n  const words = entry.tol\
d.split(' ');\n  const wakes = words[3] === 'wakes' ? Number(words[4]) : undefined;\n  return \
{ ...entry, words, wakes, step };\n}\n\nfunction recordsOf(records, entry) {\n  const [word] = \
entry.told.split(' ');\n  const before = records[records.length - 1];\n  if (word === 'out') {\
\n    records[records.length - 1] = { ...before, ...entry, hasRunOut: true };\n  } else if (wo\
rd === 'wake') {\n    before.isUnaskedNext = true;\n  } else {\n    records.push(recordOf(entr\
y, first + records.length));\n  }\n  return records;\n}\n\nconst R = H.steps.reduce(recordsOf, \
[{ ...H.start, words: [], step: first }]);\nconst told = first + R.length - 1;\nconst fault = \
H.misfit && H.misfit.index === told ? H.misfit : null;\nif (fault) R.push({ ...R[R.length - 1]\
, ...recordOf(fault, told + 1), bad: true });\nconst last = first + R.length - 1;\nR.forEach((\
r, i) => {\n  r.was = R[i - 1];\n  r.at = r.places.map((place) => place.replace(' ', ''));\n})\
;\n\nconst seatOf = (r) => Number(r.words[1]);\nconst inFile = (r) => `line ${r.step + 1}`;\nc\
onst seatsAt = (r, place) => r.places.flatMap((it, seat) => (it === place ? [seat] : []));\nco\
nst seatsThat = (r, does) => r.places.flatMap((it, seat) => (it.startsWith(does) ? [seat] : []\
));\n\n// How a thread came back: who woke it, and who had the lock in between.\n\nconst takes\
Lock = (r) => ['enter', 'resume', 'lapse'].includes(r.words[0]);\nconst isWoken = (r, seat) => \
r.places[seat].startsWith('woken');\n\n// The records before this one, the newest first.\nfunc\
tion* before(r) {\n  for (let t = r.was; t && t.words.length; t = t.was) yield t;\n}\n\n// The \
record with which a thread came back that has the lock there.\nfunction returnOf(r) {\n  if (r\
.words[0] === 'resume') return r;\n  if (!r.bad) return undefined;\n  for (const t of before(r\
)) {\n    if (seatOf(t) === seatOf(r) && takesLock(t)) return t.words[0] === 'resume' ? t : un\
defined;\n  }\n  return undefined;\n}\n\n// The record that woke it.\nfunction wakerOf(back) {\
\n  const seat = seatOf(back);\n  for (const t of before(back)) {\n    if (isWoken(t, seat) && \
!isWoken(t.was, seat)) return t;\n    if (seatOf(t) === seat) return undefined;\n  }\n  return \
undefined;\n}\n\n// The records with which others took the lock before it was back, the oldest \
first.\nfunction overtakersOf(back, waker) {\n  const found = [];\n  for (const t of before(ba\
ck)) {\n    if (t === waker) break;\n    if (takesLock(t)) found.unshift(t);\n  }\n  return fo\
und;\n}\n\nfunction storyOf(r) {\n  const back = returnOf(r);\n  const waker = back && wakerOf\
(back);\n  if (!waker) return [];\n  const others = overtakersOf(back, waker);\n  return [\n    \
[waker, `seat ${seatOf(waker)} wakes seat ${seatOf(back)}`],\n    ...others.map((t) => [t, `se\
at ${seatOf(t)} comes in between`]),\n    [back, `seat ${seatOf(back)} is back${r.bad ? ', and \
doesn\\u2019t test again' : ''}`],\n  ];\n}\n\nfunction storyLine([r, words]) {\n  const link \
= make('a', '', inFile(r));\n  link.href = `#step=${r.step}`;\n  return make('li', '', link, ` \
${words}`);\n}\n\nfunction showChoices(r) {\n  const story = storyOf(r);\n  $('choices').hidde\
n = !story.length;\n  const head = make('h2', '', 'How it came back');\n  $('choices').replace\
Children(head, make('ol', 'story', ...story.map(storyLine)));\n}\n\n// A line of a log in a se\
ntence.\n\n// Who was woken and is not back when another thread takes the lock.\nfunction over\
taken(r) {\n  const woken = seatsThat(r.was, 'woken').filter((seat) => seat !== seatOf(r));\n  \
if (!woken.length) return '';\n  const are = woken.length > 1 ? 'are' : 'is';\n  return ` It c\
omes in before ${seatsOf(woken)}, which ${are} woken and not back.`;\n}\n\nfunction sayResume(\
r) {\n  const s = seatOf(r);\n  if (r.was.isUnaskedNext) {\n    return `Seat ${s} wakes though \
nobody sent a signal, which no line tells. It has the lock again.`;\n  }\n  const others = sto\
ryOf(r).length - 2;\n  const between = others > 0 ? ' Others had the lock in between, so it ha\
s to test again.' : '';\n  return `Seat ${s} is back, and has the lock again.${between}`;\n}\n\
\nfunction sayWait(r) {\n  const sleeps = `Seat ${seatOf(r)} lets the lock go, and sleeps on c\
ondition ${r.words[2]}.`;\n  return r.hasRunOut ? `${sleeps} Its time runs out, which no line \
tells.` : sleeps;\n}\n\nconst signals = (r) => `Seat ${seatOf(r)}${r.lock === seatOf(r) ? '' : \
', without the lock,'}`;\n\nfunction saySignal(r) {\n  const to = `${signals(r)} signals condi\
tion ${r.words[2]}`;\n  return r.wakes === undefined\n    ? `${to}. Nobody sleeps there, so no\
thing comes of it.`\n    : `${to}: seat ${r.wakes} is woken, and comes back when it gets the l\
ock.`;\n}\n\nfunction sayBroadcast(r) {\n  const woken = seatsAt(r.was, `waiting ${r.words[2]}\
`);\n  const to = `${signals(r)} wakes all who sleep on condition ${r.words[2]}`;\n  return wo\
ken.length ? `${to}: ${seatsOf(woken)}.` : `${to}: nobody does.`;\n}\n\nconst SAY = {\n  enter\
: (r) => `Seat ${seatOf(r)} takes the lock.${overtaken(r)}`,\n  act: (r) => `Seat ${seatOf(r)} \
${actWords(r)}.`,\n  resume: sayResume,\n  lapse: (r) => `Seat ${seatOf(r)} is back, since its \
time ran out. It has the lock.${overtaken(r)}`,\n  leave: (r) => `Seat ${seatOf(r)} lets the l\
ock go.`,\n  wait: sayWait,\n  signal: saySignal,\n  broadcast: sayBroadcast,\n};\n\nfunction \
sayBad(r) {\n  const [word, s, condition] = r.words;\n  return {\n    enter: `Seat ${s} would \
take the lock.`,\n    act: `Seat ${s} claims that it ${actWords(r)}.`,\n    resume: `Seat ${s} \
would come back.`,\n    lapse: `Seat ${s} would come back, since its time ran out.`,\n    leav\
e: `Seat ${s} would let the lock go.`,\n    wait: `Seat ${s} would sleep on condition ${condit\
ion}.`,\n    signal: `Seat ${s} would signal condition ${condition}.`,\n    broadcast: `Seat $\
{s} would wake all who sleep on condition ${condition}.`,\n    until: `Seat ${s} would wait un\
til predicate ${condition} holds.`,\n  }[word];\n}\n\nfunction say(r) {\n  if (r.bad) return s\
ayBad(r);\n  if (r.words.length) return SAY[r.words[0]](r);\n  return r.step === 0\n    ? 'Bef\
ore the first line: the lock is free, and nobody sleeps.'\n    : `After ${plural(r.step, 'line\
')}, which this page doesn\\u2019t show.`;\n}\n\nconst wrongWords = (r) => `Misfit: ${r.why}.`\
;\n\nfunction showSay(r) {\n  $('say').replaceChildren(make('span', 'unseen', `Step ${r.step}. \
`), say(r));\n  if (r.bad) $('say').append(make('span', 'bad', wrongWords(r)));\n  $('told').c\
lassList.toggle('bad', Boolean(r.bad));\n  $('line').textContent = r.words.length ? `${inFile(\
r)} of the file: ${r.words.join(' ')}` : '';\n}\n\n// The program as boxes: who has the lock, \
the data, who sleeps, who is woken, and who is outside.\n\nfunction lockBox(r) {\n  const hold\
er = make('p', 'quiet', 'free: whoever comes first takes it');\n  return box('active half', 'L\
ock', '', r.lock === null ? holder : queueOf([r.lock], 'active'));\n}\n\nfunction topRow(r) {\n  \
return make('div', 'row', lockBox(r), dataBox(r));\n}\n\nfunction sleepersRow(r) {\n  const bo\
xes = [];\n  for (let c = 0; c < H.conditions; c++) {\n    const sleepers = queueOf(seatsAt(r, \
`waiting ${c}`), 'condition');\n    boxes.push(box('condition', `Sleep on condition ${c}`, '', \
sleepers));\n  }\n  return make('div', 'row', ...boxes);\n}\n\nconst hasTimes = R.some((r) => \
r.hasRunOut || seatsThat(r, 'out ').length);\n\nfunction returningRow(r) {\n  const woken = qu\
eueOf(seatsThat(r, 'woken'), 'waiter');\n  const boxes = [box('waiter', 'Woken', 'not back yet\
', woken)];\n  if (hasTimes) {\n    boxes.push(box('until', 'Time is over', 'not back yet', qu\
eueOf(seatsThat(r, 'out '), 'until')));\n  }\n  const head = make('h2', '', 'Whoever gets the \
lock first comes in: no queue, no order');\n  return make('div', 'row', head, ...boxes);\n}\n\n\
function showBoxes(r) {\n  const monitor = make('div', 'monitor', topRow(r), sleepersRow(r), r\
eturningRow(r));\n  if (r.bad) {\n    const head = `Before ${inFile(r)}, which can\\u2019t be: \
the program as it stands`;\n    monitor.prepend(make('h2', '', head));\n  }\n  const outside = \
box('outside', 'Without the lock', '', queueOf(seatsAt(r, 'outside'), 'outside'));\n  $('boxes\
').replaceChildren(monitor, make('div', 'row', outside));\n  $('boxes').setAttribute('aria-lab\
el', `The program ${r.bad ? 'before' : 'after'} step ${r.step}`);\n}\n\n// What the table says \
of a step, besides its sentence and the data.\n\nfunction headOf() {\n  const conditions = Arr\
ay.from({ length: H.conditions }, (_, c) => CONDITIONS[c] || `Condition ${c}`);\n  return ['St\
ep', 'What happens', 'Lock', ...conditions, 'Woken', 'Data'];\n}\n\nfunction placeCells(r) {\n  \
const asleep = Array.from({ length: H.conditions }, (_, c) => seatsAt(r, `waiting ${c}`));\n  \
const cells = [...asleep, seatsThat(r, 'woken')].map((seats) => seats.join(', '));\n  return [\
r.lock === null ? 'free' : String(r.lock), ...cells];\n}\n\nconst isLongCell = () => false;\n\n\
// The head of the page.\n\nfunction showVerdict() {\n  const misfit = H.misfit && `misfit at \
line ${H.misfit.index + 2}: ${H.misfit.word}`;\n  $('verdict').textContent = isKnown(last) ? m\
isfit || 'fits' : '';\n  $('verdict').classList.toggle('bad', Boolean(misfit));\n}\n\nfunction \
headWords() {\n  const rule = 'A run of a mutex with condition variables that tells this log.'\
;\n  const numbers = `${plural(H.seats, 'thread')}, ${plural(H.conditions, 'condition')}`;\n  \
const shown = ` The page shows lines ${first + 2} to ${last + 1} of the file.`;\n  return `${r\
ule} ${numbers}, ${objectWords()}.${first > 0 && last > first ? shown : ''}`;\n}\n\n// A log i\
s judged by one kind alone.\nfunction showKinds() {}\n\nconst log = beginHistory({ kind: 'log'\
, noun: 'A log of a program' });\n$('kinds').hidden = true;\nreturn log;\n}\n\nbegin();\n})();\
\n</script>\n</body>\n</html>\n";
